//! The typing rules in words, each for the letter of its cell.

/// What the rule of a letter asks of the claims.
pub fn rule_of(op: char) -> &'static str {
    match op {
        'v' => "a variable claims its binder's type, or a type that this is a subtype of",
        '0' | '1' => "a bit claims !bit, or a type that this is a subtype of",
        'n' => "new claims !(bit -> qbit), or a type that this is a subtype of",
        'm' => "meas claims !(qbit -> !bit), or a type that this is a subtype of",
        'g' => "a gate claims !(Q -> Q), Q being its qubits, or a type that this is a subtype of",
        's' => "the unit value claims unit, with any number of marks in front",
        'a' => "in M N, M claims A -> B with no mark in front, N claims just A, and the cell B",
        'l' => "the cell claims A -> B, maybe with marks in front, and the body claims just B",
        'p' =>
            "the cell claims A * B, maybe with marks in front; the parts A and B, each with them",
        'd' =>
            "the pair claims A * B, maybe with marks in front; the body claims what the cell does",
        'i' => "the condition claims bit with no mark in front; the branches, what the cell does",
        _ => "",
    }
}
