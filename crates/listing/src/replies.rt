//! What the replies to a shot's turns report.

ghost use Rattle.std.specs.Prelude.{Result};
ghost use Rattle.player.specs.declared.turns.TurnFault.{TurnFault as Fault};
ghost use Rattle.listing.specs.declared.replies.RunReport.{RunReport as Report};
ghost use Rattle.listing.specs.Replies.{Reports};

use controller::Stop;
use player::{Done, Reply, TurnFault};

/// A run as it was replied to: its steps and why it stopped, and how many cells of its value and of
/// the value's type were collected.
#[derive(Clone, Copy, Drop)]
pub struct RunReport {
    pub steps: u64,
    pub stop: Stop,
    pub cells: usize,
    pub kind_cells: usize,
}

/// What the replies to a load, a run and a collect report.
pub(crate) fn report_of(
    loaded: Option<Reply>,
    run: Option<Reply>,
    collected: Option<Reply>,
) -> Result<RunReport, TurnFault>
    requires { (r : Result Report Fault) × Reports loaded run collected r }
    ensures { Reports loaded run collected result }
{
    match (loaded, run, collected) {
        (Some(Err(fault)), _, _) | (Some(Ok(_)), Some(Err(fault)), _) => Err(fault),
        (_, Some(Ok(Done::Ran(steps, stop))), Some(Err(_))) => Ok(RunReport {
            steps,
            stop,
            cells: 0,
            kind_cells: 0,
        }),
        (_, Some(Ok(Done::Ran(steps, stop))), Some(Ok(Done::Collected(cells, kind_cells)))) => Ok(
            RunReport {
                steps,
                stop,
                cells,
                kind_cells,
            },
        ),
        _ => unreachable!(),
    }
}
