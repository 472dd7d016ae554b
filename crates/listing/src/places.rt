// What may stand at each place of a line, and how each family writes its fields.
ghost use Rattle.std.specs.Prelude.{◌≡◌};
ghost use Rattle.listing.specs.Places.{at_family, at_mode, form_of, named, numbered, register};
ghost use Rattle.listing.specs.Told.{names_told, place_told, field_told, form_told};

use crate::names;
use crate::names::Name;
use isa::Family;
use refusals::Refusal;

// The names that may stand at a place, and the refusal where the item is missing or is none of them.
#[derive(Clone, Copy)]
pub(crate) struct Place {
    pub(crate) refusal: Refusal,
    pub(crate) names: &'static [Name],
}

// Fields A, B and C, where they are written.
#[derive(Clone, Copy)]
pub(crate) struct Form {
    pub(crate) a: Option<Place>,
    pub(crate) b: Option<Place>,
    pub(crate) c: Option<Place>,
}

// The family of an instruction.
pub(crate) fn family() -> Place
    ensures { place_told result ≡ at_family }
{
    Place {
        refusal: Refusal::NoSuchName,
        names: names::families(),
    }
}

// Its mode.
pub(crate) fn mode() -> Place
    ensures { place_told result ≡ at_mode }
{
    Place {
        refusal: Refusal::NoSuchName,
        names: names::modes(),
    }
}

fn named(names: &'static [Name]) -> Option<Place>
    ensures { field_told result ≡ named (names_told names.now) }
{
    Some(Place {
        refusal: Refusal::NoSuchName,
        names,
    })
}

// The number of a bit, or how far a rotate goes. It and `register` differ in how many numbers there are, and not in a parameter, so that each is held to
// the definition's own list.
fn bit_number() -> Option<Place>
    ensures { field_told result ≡ numbered 16 }
{
    Some(Place {
        refusal: Refusal::NoSuchNumber,
        names: &names::numbers()[..16],
    })
}

fn register() -> Option<Place>
    ensures { field_told result ≡ register }
{
    Some(Place {
        refusal: Refusal::NoSuchNumber,
        names: names::numbers(),
    })
}

fn fields(a: Option<Place>, b: Option<Place>, c: Option<Place>) -> Form
    ensures { result ≡ record { a = a; b = b; c = c } }
{
    Form { a, b, c }
}

// How a family writes its fields.
pub(crate) fn form_of(family: Family) -> Form
    ensures { form_told result ≡ form_of family }
{
    match family {
        Family::Tor1 => fields(
            named(names::pairs()),
            named(names::operations()),
            register(),
        ),
        Family::Rotr1 => fields(bit_number(), named(names::turns_from_ram()), register()),
        Family::Rotr2 => fields(bit_number(), named(names::turns_to_ram()), register()),
        Family::Rotc => fields(bit_number(), named(names::compares()), register()),
        Family::Rotm => fields(bit_number(), named(names::merges()), register()),
        Family::Sor => fields(
            named(names::one_operand()),
            named(names::sources_ram()),
            register(),
        ),
        Family::Bor2 => fields(bit_number(), named(names::bit_loads()), register()),
        Family::Tor2 => fields(
            named(names::pairs_to_ram()),
            named(names::operations()),
            register(),
        ),
        Family::Shftr => fields(
            named(names::shifted_ram()),
            named(names::shifts()),
            register(),
        ),
        Family::Crcf | Family::Crcr | Family::Svstr => fields(None, None, register()),
        Family::Prt1 => fields(
            named(names::first_to()),
            named(names::first_from()),
            register(),
        ),
        Family::Prt2 => fields(named(names::masks()), named(names::second_to()), register()),
        Family::Prt3 => fields(
            named(names::masks()),
            named(names::third_from()),
            register(),
        ),
        Family::Sonr => fields(
            named(names::one_operand()),
            named(names::sources_no_ram()),
            named(names::destinations()),
        ),
        Family::Tonr => fields(
            named(names::pairs_no_ram()),
            named(names::operations()),
            named(names::destinations()),
        ),
        Family::Shftnr => fields(
            named(names::shifted_no_ram()),
            named(names::shifts()),
            named(names::y_or_acc()),
        ),
        Family::Bor1 => fields(bit_number(), named(names::bit_tests()), register()),
        Family::Bonr => fields(bit_number(), None, named(names::bit_acts())),
        Family::Rotnr => fields(bit_number(), None, named(names::turns_no_ram())),
        Family::Prtnr => fields(
            named(names::masks()),
            named(names::fourth_from()),
            named(names::y_or_acc()),
        ),
        Family::Svstnr => fields(None, None, named(names::y_or_acc())),
        Family::Setst => fields(None, None, named(names::sets())),
        Family::Rstst => fields(None, None, named(names::resets())),
        Family::Test => fields(None, None, named(names::tests())),
        Family::Noop => fields(None, None, None),
    }
}
