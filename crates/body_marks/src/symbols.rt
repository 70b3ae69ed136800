// Numbers, symbols and atoms behind a mark.
ghost use Rattle.std.specs.Prelude.{◌≡◌};
ghost use Rattle.body_marks.specs.Fingerprint.{after_atom, after_each, after_number, after_symbol};

use soar_rule::Atom;
use soar_sym::Sym;

/// The multiplier of the generator.
const MULTIPLIER: u64 = 6364136223846793005;

#[tactic(auto, using(crate::proofs::NumberLemmas::number_is))]
pub fn after_number(number: u64, mark: u64) -> u64
    ensures { result ≡ after_number number mark }
{
    mark.wrapping_mul(MULTIPLIER).wrapping_add(number)
}

pub fn after_symbol(symbol: Sym, mark: u64) -> u64
    ensures { result ≡ after_symbol symbol mark }
{
    match symbol {
        Sym::Ident { letter, number } => {
            let kind = after_number(1, mark);
            after_number(u64::from(number), after_number(u64::from(letter), kind))
        }
        Sym::Word(word) => after_number(u64::from(word), after_number(2, mark)),
        Sym::Int(value) => after_number(value.cast_unsigned(), after_number(3, mark)),
    }
}

pub fn after_symbols(symbols: &[Sym], mark: u64) -> u64
    ensures { result ≡ after_each after_symbol symbols.now mark }
{
    let mut last = mark;
    'symbols: for symbol in symbols {
        last = after_symbol(*symbol, last);
    }
    last
}

/// All variables count alike.
pub fn after_atom(atom: Atom, mark: u64) -> u64
    ensures { result ≡ after_atom atom mark }
{
    match atom {
        Atom::Const(symbol) => after_symbol(symbol, mark),
        Atom::Var(_) => after_number(0, mark),
    }
}
