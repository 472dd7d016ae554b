// The check of a trace block, byte by byte. It is defined by the machine's own CRCF, a bit at a time (specs/Check); here only the check
// register is carried, with the incoming bits (specs/Folding).
ghost use Rattle.std.specs.Prelude.{◌≡◌};
ghost use Rattle.trace.specs.Folding.{fold_bits};

// A pass: eight bits' work on the register and the incoming bits of a byte, the top one first. Each step moves the register up one, and xors
// 1021 (1s at bits 12, 5 and 0) into it where the bit that leaves and the incoming one, LINK on the chip, differ. The bits that leave are
// those of the upper byte, except that a 1 which a step put at bit 12 turns over the bit that leaves four steps later. So `fed` has a 1 for each
// step that xors, the first on top, and each such 1021 has moved up by the steps after it: one expression does the work of eight.
pub(crate) fn check_byte(register: u16, byte: u8) -> u16
    ensures { result ≡ fold_bits 8 register byte }
{
    let differ = (register >> 8) ^ u16::from(byte);
    let fed = differ ^ (differ >> 4);
    let over = (fed << 12) ^ (fed << 5) ^ fed;
    (register << 8) ^ over
}
