// The fields of a word, and what a row says of an instruction's mode and fields.
ghost use Rattle.std.specs.Prelude.{◌≡◌, ◌<◌};
ghost use Rattle.isa.specs.Sets.{has};
ghost use Rattle.isa.specs.Fields.{mode_of, mark_for};
ghost use Rattle.isa.specs.Slots.{takes};
ghost use Rattle.isa.specs.Words.{asks_i};
ghost use Rattle.isa.specs.Decision.{FieldsOf, named_by_fields, takes_fields};

use crate::parts::Fields;
use crate::{Family, Named, Row, mark_for, mode_of};

impl Fields {
    // The fields of a word.
    pub(crate) fn of(word: u16) -> Fields
        ensures { FieldsOf result word }
    {
        Fields {
            mark: (word / 0x8000) as u8,
            quadrant: (word / 0x2000 % 4) as u8,
            a: (word / 0x200 % 16) as u8,
            b: (word / 0x20 % 16) as u8,
            c: (word % 32) as u8,
        }
    }

    // The instruction of a family that has these fields.
    pub(crate) fn named(&self, family: Family) -> Named
        ensures { result ≡ named_by_fields family self.now }
    {
        Named {
            family,
            mode: mode_of(self.mark),
            a: self.a,
            b: self.b,
            c: self.c,
        }
    }
}

// Whether k is in a set.
fn holds(set: u32, k: u8) -> bool
    ensures { result ≡ has set k }
{
    k < 32 && (set >> k) % 2 == 1
}

impl Row {
    // Whether the row has an instruction's mode and fields.
    pub(crate) fn takes(self, named: Named) -> bool
        ensures { result ≡ takes self (mark_for named.mode) named.a named.b named.c }
    {
        holds(self.a as u32, named.a)
            && holds(self.b as u32, named.b)
            && holds(self.modes as u32, mark_for(named.mode))
            && holds(self.c, named.c)
    }

    // Whether the row takes a word with these fields.
    pub(crate) fn takes_fields(self, fields: &Fields) -> bool
        ensures { result ≡ takes_fields self fields.now }
    {
        self.quadrant == fields.quadrant && self.takes(fields.named(self.family))
    }

    // Whether an instruction of the row has an I operand with its values of A and B.
    pub(crate) fn asks_immediate(self, named: Named) -> bool
        requires { named.b < 16 }
        ensures { result ≡ asks_i self named.a named.b }
    {
        holds(self.immediate, named.a) || holds(self.immediate, 16 + named.b)
    }
}
