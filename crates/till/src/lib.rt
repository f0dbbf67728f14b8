// What the till server gets of an answer: one number.
#![tactic(auto)]

ghost use Rattle.std.specs.Prelude.{◌<◌, ◌≡◌};
ghost use Rattle.plan_judgement.specs.Judgement.{says};
ghost use Rattle.till.specs.Till.{answers_below, number_said};

use sheet::Fault;
use summary::{Totals, verdict_number};

// The number of a fault, else of the verdict.
pub fn answer_number(answer: Result<Totals, Fault>) -> u32
    requires { number_said (says answer) < answers_below }
    ensures { result ≡ number_said (says answer) }
{
    match answer {
        Ok(totals) => verdict_number(totals.verdict),
        Err(fault) => fault.number(),
    }
}
