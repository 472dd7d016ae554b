// The names of document 001's instruction tables, list by list, and the numbers, each with the value that it stands for.
ghost use Rattle.std.specs.Prelude.{◌≡◌, ◌==◌, option_map};
ghost use Rattle.std.specs.List.{find};
ghost use Rattle.std.specs.Str.{bytes_eq};
ghost use Rattle.listing.specs.Names.{families, modes, one_operand, sources_ram, sources_no_ram, destinations, y_or_acc, pairs, pairs_to_ram, pairs_no_ram, operations, shifted_ram, shifted_no_ram, shifts, bit_tests, bit_loads, bit_acts, turns_from_ram, turns_to_ram, turns_no_ram, merges, compares, first_to, first_from, masks, second_to, third_from, fourth_from, sets, resets, tests};
ghost use Rattle.listing.specs.Places.{numerals};
ghost use Rattle.listing.specs.Told.{names_told};

// A value and the text that stands for it.
#[derive(Clone, Copy)]
pub(crate) struct Name(u8, &'static [u8]);

// The text of a value among names.
pub(crate) fn text_in(names: &[Name], value: u8) -> Option<&'static [u8]>
    ensures { result ≡ option_map (λ x. x.1) (find (λ x. x.0 == value) names.now) }
{
    names.iter().find(|name| name.0 == value).map(|name| name.1)
}

// The value of a text among names.
pub(crate) fn value_in(names: &[Name], text: &[u8]) -> Option<u8>
    ensures { result ≡ option_map (λ x. x.0) (find (λ x. bytes_eq x.1.now text.now) names.now) }
{
    names.iter().find(|name| name.1 == text).map(|name| name.0)
}

// The families of the summary of mnemonics, by the numbers of their rows.
pub(crate) fn families() -> &'static [Name]
    ensures { names_told result.now ≡ families }
{
    &[
        Name(0, b"TOR1"),
        Name(1, b"ROTR1"),
        Name(2, b"ROTR2"),
        Name(3, b"ROTC"),
        Name(4, b"ROTM"),
        Name(5, b"SOR"),
        Name(6, b"BOR2"),
        Name(7, b"TOR2"),
        Name(8, b"SHFTR"),
        Name(9, b"CRCF"),
        Name(10, b"CRCR"),
        Name(11, b"PRT1"),
        Name(12, b"PRT2"),
        Name(13, b"PRT3"),
        Name(14, b"SVSTR"),
        Name(15, b"SONR"),
        Name(16, b"TONR"),
        Name(17, b"SHFTNR"),
        Name(18, b"BOR1"),
        Name(19, b"BONR"),
        Name(20, b"ROTNR"),
        Name(21, b"PRTNR"),
        Name(22, b"SVSTNR"),
        Name(23, b"SETST"),
        Name(24, b"RSTST"),
        Name(25, b"TEST"),
        Name(26, b"NOOP"),
    ]
}

// The mode, by its mark.
pub(crate) fn modes() -> &'static [Name]
    ensures { names_told result.now ≡ modes }
{
    &[Name(0, b"B"), Name(1, b"W")]
}

// SOR and SONR, opcode (A).
pub(crate) fn one_operand() -> &'static [Name]
    ensures { names_told result.now ≡ one_operand }
{
    &[
        Name(0b1100, b"MOVE"),
        Name(0b1101, b"COMP"),
        Name(0b1110, b"INC"),
        Name(0b1111, b"NEG"),
    ]
}

// SOR, source and destination (B).
pub(crate) fn sources_ram() -> &'static [Name]
    ensures { names_told result.now ≡ sources_ram }
{
    &[
        Name(0b0000, b"SORA"),
        Name(0b0010, b"SORY"),
        Name(0b0011, b"SORS"),
        Name(0b0100, b"SOAR"),
        Name(0b0110, b"SODR"),
        Name(0b0111, b"SOIR"),
        Name(0b1000, b"SOZR"),
        Name(0b1001, b"SOZER"),
        Name(0b1010, b"SOSE"),
        Name(0b1011, b"SORR"),
    ]
}

// SONR, source (B).
pub(crate) fn sources_no_ram() -> &'static [Name]
    ensures { names_told result.now ≡ sources_no_ram }
{
    &[
        Name(0b0100, b"SOA"),
        Name(0b0110, b"SOD"),
        Name(0b0111, b"SOI"),
        Name(0b1000, b"SOZ"),
        Name(0b1001, b"SOZE"),
        Name(0b1010, b"SOSE"),
    ]
}

// SONR and TONR, destination (C).
pub(crate) fn destinations() -> &'static [Name]
    ensures { names_told result.now ≡ destinations }
{
    &[
        Name(0b00000, b"NRY"),
        Name(0b00001, b"NRA"),
        Name(0b00100, b"NRS"),
        Name(0b00101, b"NRAS"),
    ]
}

// SHFTNR, PRTNR and SVSTNR, destination (C).
pub(crate) fn y_or_acc() -> &'static [Name]
    ensures { names_told result.now ≡ y_or_acc }
{
    &[Name(0b00000, b"NRY"), Name(0b00001, b"NRA")]
}

// TOR1, sources and destination (A).
pub(crate) fn pairs() -> &'static [Name]
    ensures { names_told result.now ≡ pairs }
{
    &[
        Name(0b0000, b"TORAA"),
        Name(0b0010, b"TORIA"),
        Name(0b0011, b"TODRA"),
        Name(0b1000, b"TORAY"),
        Name(0b1010, b"TORIY"),
        Name(0b1011, b"TODRY"),
        Name(0b1100, b"TORAR"),
        Name(0b1110, b"TORIR"),
        Name(0b1111, b"TODRR"),
    ]
}

// TOR2, sources and destination (A).
pub(crate) fn pairs_to_ram() -> &'static [Name]
    ensures { names_told result.now ≡ pairs_to_ram }
{
    &[
        Name(0b0001, b"TODAR"),
        Name(0b0010, b"TOAIR"),
        Name(0b0101, b"TODIR"),
    ]
}

// TONR, sources (A).
pub(crate) fn pairs_no_ram() -> &'static [Name]
    ensures { names_told result.now ≡ pairs_no_ram }
{
    &[
        Name(0b0001, b"TODA"),
        Name(0b0010, b"TOAI"),
        Name(0b0101, b"TODI"),
    ]
}

// TOR1, TOR2 and TONR, opcode (B).
pub(crate) fn operations() -> &'static [Name]
    ensures { names_told result.now ≡ operations }
{
    &[
        Name(0b0000, b"SUBR"),
        Name(0b0001, b"SUBRC"),
        Name(0b0010, b"SUBS"),
        Name(0b0011, b"SUBSC"),
        Name(0b0100, b"ADD"),
        Name(0b0101, b"ADDC"),
        Name(0b0110, b"AND"),
        Name(0b0111, b"NAND"),
        Name(0b1000, b"EXOR"),
        Name(0b1001, b"NOR"),
        Name(0b1010, b"OR"),
        Name(0b1011, b"EXNOR"),
    ]
}

// SHFTR, source and destination (A).
pub(crate) fn shifted_ram() -> &'static [Name]
    ensures { names_told result.now ≡ shifted_ram }
{
    &[Name(0b0110, b"SHRR"), Name(0b0111, b"SHDR")]
}

// SHFTNR, source (A).
pub(crate) fn shifted_no_ram() -> &'static [Name]
    ensures { names_told result.now ≡ shifted_no_ram }
{
    &[Name(0b0110, b"SHA"), Name(0b0111, b"SHD")]
}

// SHFTR and SHFTNR, opcode (B).
pub(crate) fn shifts() -> &'static [Name]
    ensures { names_told result.now ≡ shifts }
{
    &[
        Name(0b0000, b"SHUPZ"),
        Name(0b0001, b"SHUP1"),
        Name(0b0010, b"SHUPL"),
        Name(0b0100, b"SHDNZ"),
        Name(0b0101, b"SHDN1"),
        Name(0b0110, b"SHDNL"),
        Name(0b0111, b"SHDNC"),
        Name(0b1000, b"SHDNOV"),
    ]
}

// BOR1, opcode (B).
pub(crate) fn bit_tests() -> &'static [Name]
    ensures { names_told result.now ≡ bit_tests }
{
    &[
        Name(0b1101, b"SETNR"),
        Name(0b1110, b"RSTNR"),
        Name(0b1111, b"TSTNR"),
    ]
}

// BOR2, opcode (B).
pub(crate) fn bit_loads() -> &'static [Name]
    ensures { names_told result.now ≡ bit_loads }
{
    &[
        Name(0b1100, b"LD2NR"),
        Name(0b1101, b"LDC2NR"),
        Name(0b1110, b"A2NR"),
        Name(0b1111, b"S2NR"),
    ]
}

// BONR, opcode (C).
pub(crate) fn bit_acts() -> &'static [Name]
    ensures { names_told result.now ≡ bit_acts }
{
    &[
        Name(0b00000, b"TSTNA"),
        Name(0b00001, b"RSTNA"),
        Name(0b00010, b"SETNA"),
        Name(0b00100, b"A2NA"),
        Name(0b00101, b"S2NA"),
        Name(0b00110, b"LD2NA"),
        Name(0b00111, b"LDC2NA"),
        Name(0b10000, b"TSTND"),
        Name(0b10001, b"RSTND"),
        Name(0b10010, b"SETND"),
        Name(0b10100, b"A2NDY"),
        Name(0b10101, b"S2NDY"),
        Name(0b10110, b"LS2NY"),
        Name(0b10111, b"LDC2NY"),
    ]
}

// ROTR1, source and destination (B).
pub(crate) fn turns_from_ram() -> &'static [Name]
    ensures { names_told result.now ≡ turns_from_ram }
{
    &[
        Name(0b1100, b"RTRA"),
        Name(0b1110, b"RTRY"),
        Name(0b1111, b"RTRR"),
    ]
}

// ROTR2, source and destination (B).
pub(crate) fn turns_to_ram() -> &'static [Name]
    ensures { names_told result.now ≡ turns_to_ram }
{
    &[Name(0b0000, b"RTAR"), Name(0b0001, b"RTDR")]
}

// ROTNR, source and destination (C).
pub(crate) fn turns_no_ram() -> &'static [Name]
    ensures { names_told result.now ≡ turns_no_ram }
{
    &[
        Name(0b11000, b"RTDY"),
        Name(0b11001, b"RTDA"),
        Name(0b11100, b"RTAY"),
        Name(0b11101, b"RTAA"),
    ]
}

// ROTM, sources and mask (B).
pub(crate) fn merges() -> &'static [Name]
    ensures { names_told result.now ≡ merges }
{
    &[
        Name(0b0111, b"MDAI"),
        Name(0b1000, b"MDAR"),
        Name(0b1001, b"MDRI"),
        Name(0b1010, b"MDRA"),
        Name(0b1100, b"MARI"),
        Name(0b1110, b"MRAI"),
    ]
}

// ROTC, sources and mask (B).
pub(crate) fn compares() -> &'static [Name]
    ensures { names_told result.now ≡ compares }
{
    &[
        Name(0b0010, b"CDAI"),
        Name(0b0011, b"CDRI"),
        Name(0b0100, b"CDRA"),
        Name(0b0101, b"CRAI"),
    ]
}

// PRT1, destination (A).
pub(crate) fn first_to() -> &'static [Name]
    ensures { names_told result.now ≡ first_to }
{
    &[
        Name(0b1000, b"PRIA"),
        Name(0b1010, b"PR1Y"),
        Name(0b1011, b"PR1R"),
    ]
}

// PRT1, source (B).
pub(crate) fn first_from() -> &'static [Name]
    ensures { names_told result.now ≡ first_from }
{
    &[Name(0b0111, b"RPT1A"), Name(0b1001, b"PR1D")]
}

// PRT2, PRT3 and PRTNR, mask (A).
pub(crate) fn masks() -> &'static [Name]
    ensures { names_told result.now ≡ masks }
{
    &[
        Name(0b1000, b"PRA"),
        Name(0b1010, b"PRZ"),
        Name(0b1011, b"PRI"),
    ]
}

// PRT2, destination (B).
pub(crate) fn second_to() -> &'static [Name]
    ensures { names_told result.now ≡ second_to }
{
    &[Name(0b0000, b"PR2A"), Name(0b0010, b"PR2Y")]
}

// PRT3, source (B).
pub(crate) fn third_from() -> &'static [Name]
    ensures { names_told result.now ≡ third_from }
{
    &[
        Name(0b0011, b"PR3R"),
        Name(0b0100, b"PR3A"),
        Name(0b0110, b"PR3D"),
    ]
}

// PRTNR, source (B).
pub(crate) fn fourth_from() -> &'static [Name]
    ensures { names_told result.now ≡ fourth_from }
{
    &[Name(0b0100, b"PRTA"), Name(0b0110, b"PRTD")]
}

// SETST, opcode (C).
pub(crate) fn sets() -> &'static [Name]
    ensures { names_told result.now ≡ sets }
{
    &[
        Name(0b00011, b"SONCZ"),
        Name(0b00101, b"SL"),
        Name(0b00110, b"SF1"),
        Name(0b01001, b"SF2"),
        Name(0b01010, b"SF3"),
    ]
}

// RSTST, opcode (C).
pub(crate) fn resets() -> &'static [Name]
    ensures { names_told result.now ≡ resets }
{
    &[
        Name(0b00011, b"RONCZ"),
        Name(0b00101, b"RL"),
        Name(0b00110, b"RF1"),
        Name(0b01001, b"RF2"),
        Name(0b01010, b"RF3"),
    ]
}

// TEST, opcode (C).
pub(crate) fn tests() -> &'static [Name]
    ensures { names_told result.now ≡ tests }
{
    &[
        Name(0b00000, b"TNOZ"),
        Name(0b00010, b"TNO"),
        Name(0b00100, b"TZ"),
        Name(0b00110, b"TOVR"),
        Name(0b01000, b"TLOW"),
        Name(0b01010, b"TC"),
        Name(0b01100, b"TZC"),
        Name(0b01110, b"TN"),
        Name(0b10000, b"TL"),
        Name(0b10010, b"TF1"),
        Name(0b10100, b"TF2"),
        Name(0b10110, b"TF3"),
    ]
}

// The numbers 0 to 31.
pub(crate) fn numbers() -> &'static [Name]
    ensures { names_told result.now ≡ numerals 0 32 }
{
    &[
        Name(0, b"0"),
        Name(1, b"1"),
        Name(2, b"2"),
        Name(3, b"3"),
        Name(4, b"4"),
        Name(5, b"5"),
        Name(6, b"6"),
        Name(7, b"7"),
        Name(8, b"8"),
        Name(9, b"9"),
        Name(10, b"10"),
        Name(11, b"11"),
        Name(12, b"12"),
        Name(13, b"13"),
        Name(14, b"14"),
        Name(15, b"15"),
        Name(16, b"16"),
        Name(17, b"17"),
        Name(18, b"18"),
        Name(19, b"19"),
        Name(20, b"20"),
        Name(21, b"21"),
        Name(22, b"22"),
        Name(23, b"23"),
        Name(24, b"24"),
        Name(25, b"25"),
        Name(26, b"26"),
        Name(27, b"27"),
        Name(28, b"28"),
        Name(29, b"29"),
        Name(30, b"30"),
        Name(31, b"31"),
    ]
}
