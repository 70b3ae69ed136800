// Eight bytes of a symbol, by which the elements of an identifier stand together.
ghost use Rattle.std.specs.Prelude.{◌≡◌};
ghost use Rattle.soar_wm.specs.Shelf.{place_of};

use soar_sym::Sym;

/// A letter and a number.
pub type Place = (u8, u32);

/// The letter and number of an identifier. Words and integers have places too, which many share.
pub fn place_of(symbol: Sym) -> Place
    ensures { result ≡ place_of symbol }
{
    match symbol {
        Sym::Ident { letter, number } => (letter, number),
        Sym::Word(word) => (0, word),
        Sym::Int(_) => (0, 0),
    }
}
