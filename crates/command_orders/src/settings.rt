// Orders that change a setting by words.
ghost use Rattle.std.specs.Prelude.{◌≡◌, ◌∷◌, map, option_map};
ghost use Rattle.soar_sym.specs.Words.{text_of};
ghost use Rattle.soar_sym.specs.declared.symbol.Sym.TheVariants.{Word};
ghost use Rattle.defs_read.specs.Sayings.{IsWordKnown};
ghost use Rattle.defs_run.specs.Arguments.{bare};
ghost use Rattle.defs_run.specs.CommandForms.{chunk_order, epsilon_order, mode_order, selection_order, switch_order};
ghost use Rattle.command_orders.specs.Asked.{learning_by, order_seen, switch_by};
ghost use Rattle.command_orders.specs.Behind.{AreArgumentsKnown, argument_seen};
ghost use Rattle.command_orders.specs.Known.{IsOrderRead};

use crate::argument::Argument;
use defs_run::Order;
use defs_soar::Mode;
use soar_sym::SymTable;

/// The greatest denominator of a probability.
const MOST_PARTS: u64 = 1_000_000;

// ---- learning

/// The order to learn or not, or to learn from firings that found something missing in a substate.
pub fn chunk_order(table: &SymTable, arguments: &[Argument]) -> Option<Order>
    requires { AreArgumentsKnown table.now arguments.now }
    ensures order { option_map order_seen result ≡ chunk_order (map (argument_seen table.now) arguments.now) }
    ensures read { IsOrderRead table.now result }
{
    match arguments.split_first() {
        Some((Argument::Bare(word), behind)) => learning_order(table, *word, behind),
        _ => None,
    }
}

/// The order behind a bare word.
fn learning_order(table: &SymTable, word: u32, behind: &[Argument]) -> Option<Order>
    requires word { IsWordKnown table.now (Word word) }
    requires behind { AreArgumentsKnown table.now behind.now }
    ensures order { option_map order_seen result ≡ chunk_order (bare (text_of table.now word) ∷ map (argument_seen table.now) behind.now) }
    ensures read { IsOrderRead table.now result }
{
    let text = table.text(word);
    if behind.is_empty() {
        return learning_by(table, text);
    }
    if text == "allow-local-negations" {
        switch_order(table, behind)
    } else {
        None
    }
}

/// Whether to learn, by a word.
fn learning_by(table: &SymTable, text: &str) -> Option<Order>
    ensures order { option_map order_seen result ≡ learning_by text.now }
    ensures read { IsOrderRead table.now result }
{
    if text == "always" {
        Some(Order::Chunk(true))
    } else if text == "never" {
        Some(Order::Chunk(false))
    } else {
        None
    }
}

/// The order to switch on or off that it is learned from what was missing.
fn switch_order(table: &SymTable, arguments: &[Argument]) -> Option<Order>
    requires { AreArgumentsKnown table.now arguments.now }
    ensures order { option_map order_seen result ≡ switch_order (map (argument_seen table.now) arguments.now) }
    ensures read { IsOrderRead table.now result }
{
    match arguments {
        [Argument::Bare(word)] => switch_by(table, table.text(*word)),
        _ => None,
    }
}

fn switch_by(table: &SymTable, text: &str) -> Option<Order>
    ensures order { option_map order_seen result ≡ switch_by text.now }
    ensures read { IsOrderRead table.now result }
{
    if text == "on" {
        Some(Order::LocalNegations(true))
    } else if text == "off" {
        Some(Order::LocalNegations(false))
    } else {
        None
    }
}

// ---- how a candidate is drawn

/// The order to set how a candidate is drawn.
pub fn selection_order(table: &SymTable, arguments: &[Argument]) -> Option<Order>
    requires { AreArgumentsKnown table.now arguments.now }
    ensures order { option_map order_seen result ≡ selection_order (map (argument_seen table.now) arguments.now) }
    ensures read { IsOrderRead table.now result }
{
    match arguments {
        [Argument::Bare(word)] => mode_order(table, table.text(*word)),
        [
            Argument::Bare(word),
            Argument::Number(p),
            Argument::Number(q),
        ] => epsilon_order(table, table.text(*word), *p, *q),
        _ => None,
    }
}

fn mode_order(table: &SymTable, text: &str) -> Option<Order>
    ensures order { option_map order_seen result ≡ mode_order text.now }
    ensures read { IsOrderRead table.now result }
{
    if text == "first" {
        Some(Order::SelectBy(Mode::First))
    } else if text == "last" {
        Some(Order::SelectBy(Mode::Last))
    } else if text == "softmax" {
        Some(Order::SelectBy(Mode::Softmax))
    } else {
        None
    }
}

/// The order to draw at random with the probability `p` of `q`, else the greatest.
fn epsilon_order(table: &SymTable, text: &str, p: u64, q: u64) -> Option<Order>
    ensures order { option_map order_seen result ≡ epsilon_order text.now p q }
    ensures read { IsOrderRead table.now result }
{
    if text == "epsilon-greedy" && p <= q && 1 <= q && q <= MOST_PARTS {
        Some(Order::SelectBy(Mode::EpsilonGreedy {
            p: p as u32,
            q: q as u32,
        }))
    } else {
        None
    }
}
