// What an accepted cycle does, with RAM in place: a first immediate cycle waits; an instruction sees, acts and settles.
ghost use Rattle.std.specs.Prelude.{◌≡◌};
ghost use Rattle.choice.specs.Pick.{pick};
ghost use Rattle.machine.specs.Pins.{oe_y_high};
ghost use Rattle.machine.specs.Stepping.{waiting_step, Performed};

use crate::{
    Core, Report, Stepped, Verdict, Waiting, Words, acting, conditions, pins, seeing, settling,
};
use isa::Named;
use plan::Chooser;

// A first immediate cycle, with D latched already.
pub(crate) fn waits(named: Named, core: Core, words: Words) -> Stepped
    ensures { result ≡ waiting_step named core words }
{
    Stepped {
        core: settling::with_waiting(core, Waiting::Held(words.lines)),
        named,
        report: Report {
            y: 0,
            mask: 0,
            ct: conditions::ct(Chooser::Pins, core.status, words.pins),
            t: conditions::t(core.status, words.pins),
            completed: None,
        },
    }
}

// What Y shows of a word.
fn on_y(levels: u16, x: u16) -> u16
    ensures { result ≡ pick (oe_y_high levels) 0 x }
{
    if pins::oe_y_high(levels) { 0 } else { x }
}

// An instruction, with D latched already.
pub(crate) fn performs(ram: &mut [u16; 32], verdict: Verdict, core: Core, levels: u16) -> Stepped
    ensures { Performed ram.old verdict core levels result ram.new }
{
    let plan = verdict.plan;
    let word = ram[(plan.register % 32) as usize];
    let view = seeing::seen(plan.mode, word, core, verdict.immediate);
    let effect = acting::acted(plan, view);
    settling::settle_ram(ram, plan.register, plan.mode, effect, levels);
    let after = settling::settled_core(plan.mode, core, effect, levels);
    Stepped {
        core: after,
        named: verdict.named,
        report: Report {
            y: on_y(levels, effect.shown),
            mask: on_y(levels, effect.mask),
            ct: conditions::ct(plan.work.chooser, core.status, levels),
            t: conditions::t(after.status, levels),
            completed: Some(verdict.named),
        },
    }
}
