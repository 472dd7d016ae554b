// Whether a cycle is refused, waits, or performs an instruction. A cycle's word is looked up here and nowhere else.
ghost use Rattle.std.specs.Prelude.{◌≡◌, []};
ghost use Rattle.choice.specs.Checks.{refusal};
ghost use Rattle.machine.specs.Judging.{pin_checks, word_about};
ghost use Rattle.machine.specs.Deciding.{fault_in, LooksUp, PlannedBy, Judges};

use crate::{Verdict, Waiting, Words, pins};
use isa::{Lookup, Named};
use plan::Plan;
use refusals::Refusal;

// The word that a cycle is about: the one that waits, or its lines.
fn word_about(waiting: Waiting, lines: u16) -> u16
    ensures { result ≡ word_about waiting lines }
{
    match waiting {
        Waiting::Nothing => lines,
        Waiting::Held(word) => word,
    }
}

// The pins alone.
fn pins_allowed(levels: u16) -> Result<(), Refusal>
    ensures { fault_in result ≡ refusal (pin_checks levels []) }
{
    if pins::stray_pin(levels) {
        return Err(Refusal::StrayPin);
    }
    if pins::bus_clash(levels) {
        return Err(Refusal::BusClash);
    }
    Ok(())
}

// What the word says that a cycle is about. The only call of looking up, as that below is of planning, because the compiler makes a part of the
// cycle only of what is called once.
pub(crate) fn look_up(waiting: Waiting, lines: u16) -> Lookup
    ensures { LooksUp waiting lines result }
{
    isa::look_up(word_about(waiting, lines))
}

// The instruction of an accepted word, and its plan.
fn planned(found: Lookup) -> Result<(Named, Plan), Refusal>
    ensures { PlannedBy found result }
{
    match found.refusal {
        None => Ok((found.named, plan::plan_for(found.named))),
        Some(refusal) => Err(refusal),
    }
}

// Whether a cycle is refused, only begins an instruction, or performs one. Both lists of checks stand in this one function, because with one
// function for each a cycle takes more instructions.
pub(crate) fn judge(waiting: Waiting, found: Lookup, words: Words) -> Result<Verdict, Refusal>
    requires { LooksUp waiting words.lines found }
    ensures { Judges waiting words result }
{
    let decoded = planned(found);
    match waiting {
        Waiting::Nothing => {
            pins_allowed(words.pins)?;
            let (named, plan) = decoded?;
            let begins = plan::names_immediate(plan.work);
            if begins && pins::ien_high(words.pins) {
                return Err(Refusal::DisabledImmediate);
            }
            Ok(Verdict {
                begins,
                named,
                plan,
                immediate: 0,
            })
        }
        Waiting::Held(_) => {
            let Ok((named, plan)) = decoded else {
                return Err(Refusal::NothingToOperate);
            };
            if !plan::names_immediate(plan.work) {
                return Err(Refusal::NothingToOperate);
            }
            pins_allowed(words.pins)?;
            Ok(Verdict {
                begins: false,
                named,
                plan,
                immediate: words.lines,
            })
        }
    }
}
