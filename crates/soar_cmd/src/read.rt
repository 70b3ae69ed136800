// Commands read.
ghost use Rattle.std.specs.Prelude.{◌≡◌, ◌≤◌, ◌^◌, List as ListOf, IfOk, false, length, map};
ghost use Rattle.soar_sym.specs.Words.{Texts};
ghost use Rattle.soar_rule.specs.Productions.{production_seen};
ghost use Rattle.soar_rule.specs.Symbols.{AreKnown, symbols_of};
ghost use Rattle.defs_text.specs.Lexing.{Spelled, lexed};
ghost use Rattle.defs_text.specs.Numbered.{numbered};
ghost use Rattle.defs_read.specs.Sayings.{AreTokensKnown};
ghost use Rattle.defs_soar.specs.Pending.{is_justification};
ghost use Rattle.defs_run.specs.RandomReading.{random_lexed, random_order};
ghost use Rattle.defs_run.specs.WholeReading.{checked, or_wrong, read_arguments, read_source, read_sp, read_tokens, read_whole};
ghost use Rattle.soar_lex.specs.Answers.{Grown};
ghost use Rattle.command_orders.specs.Asked.{form_seen, numbers_order, order_by};
ghost use Rattle.command_orders.specs.Known.{AreSpelledIn, IsOrderKnown};
ghost use Rattle.soar_cmd.specs.Answers.{IsCommandRead, IsJudged};

use crate::fault::CmdFault;
use crate::order::order_by;
use crate::random::random_order;
use crate::refused::{of_check, of_lexing, of_reading, refused};
use crate::source::source_order;
use command_orders::{Form, form_of, is_word};
use defs_run::Order;
use defs_text::Token;
use file_names::first_run;
use random_words::lex_random;
use rule_check::check;
use rule_laws::checked_is_in_order;
use soar_edge::Command;
use soar_lex::lex;
use soar_read::read_production;
use soar_rule::Production;
use soar_sym::{List, SymTable};
use std::alloc::Global;

/// Reads a command, whose words join the table, and gives what it asks for.
pub fn read_command(alloc: Global, table: &mut SymTable, c: &Command) -> Result<Order, CmdFault>
    requires { length c.now.text ≤ 2 ^ 26 }
    ensures reading { IsCommandRead table.new (read_whole table.old c.now.text) result }
    ensures known { IfOk result (λ order. IsOrderKnown table.new order) }
    ensures grown { Grown table.old table.new }
{
    let word = first_run(c.text.as_slice());
    if is_word(word, b"sp") {
        return read_sp(alloc, table, &c.text);
    }
    if is_word(word, b"source") {
        return read_source(alloc, table, &c.text);
    }
    if is_word(word, b"random") {
        return read_random(alloc, table, &c.text);
    }
    match form_of(word) {
        Some(form) => read_form(alloc, table, form, &c.text),
        None => Err(refused(10)),
    }
}

// ---- productions

/// Reads the command that loads a production.
fn read_sp(alloc: Global, table: &mut SymTable, text: &List<u8>) -> Result<Order, CmdFault>
    requires { length text.now ≤ 2 ^ 26 }
    ensures reading { IsCommandRead table.new (read_sp checked table.old text.now) result }
    ensures known { IfOk result (λ order. IsOrderKnown table.new order) }
    ensures grown { Grown table.old table.new }
{
    match lex(alloc, table, text) {
        Ok(tokens) => read_tokens(alloc, table, &tokens),
        Err(fault) => Err(of_lexing(fault)),
    }
}

/// Reads the production that the tokens spell.
fn read_tokens(alloc: Global, table: &mut SymTable, tokens: &List<Token>) -> Result<Order, CmdFault>
    requires few { length tokens.now ≤ 2 ^ 26 }
    requires words { AreTokensKnown table.old tokens.now }
    ensures reading { (spelled : ListOf Spelled) → tokens.now ≡ map (numbered table.old) spelled → AreSpelledIn table.old spelled
        → IsCommandRead table.new (read_tokens checked table.old spelled) result }
    ensures known { IfOk result (λ order. IsOrderKnown table.new order) }
    ensures grown { Grown table.old table.new }
{
    match read_production(alloc, table, tokens) {
        Ok(production) => judge(alloc, table, &production),
        Err(fault) => Err(of_reading(fault)),
    }
}

/// The order to load a production in match order, where nothing is wrong with it.
fn judge(alloc: Global, table: &SymTable, production: &Production) -> Result<Order, CmdFault>
    requires known { AreKnown table.now (symbols_of (production_seen production.now)) }
    requires unlearned { is_justification production.now.kind ≡ false }
    ensures judged { IsJudged table.now (checked table.now (production_seen production.now)) result }
    ensures known { IfOk result (λ order. IsOrderKnown table.now order) }
{
    table.law();
    checked_is_in_order();
    match check(alloc, production) {
        Ok(ordered) => Ok(Order::Load(ordered)),
        Err(fault) => Err(of_check(production, fault)),
    }
}

// ---- files

/// Reads the command that runs a file, which adds no words.
fn read_source(alloc: Global, table: &SymTable, text: &List<u8>) -> Result<Order, CmdFault>
    requires { length text.now ≤ 2 ^ 26 }
    ensures reading { IsCommandRead table.now (read_source table.now text.now) result }
    ensures known { IfOk result (λ order. IsOrderKnown table.now order) }
{
    source_order(alloc, text.as_slice())
}

// ---- the other commands

/// Reads a command whose word has a form.
fn read_form(
    alloc: Global,
    table: &mut SymTable,
    form: Form,
    text: &List<u8>,
) -> Result<Order, CmdFault>
    requires { length text.now ≤ 2 ^ 26 }
    ensures reading { IsCommandRead table.new (read_arguments table.old text.now (lexed text.now) (form_seen form)) result }
    ensures known { IfOk result (λ order. IsOrderKnown table.new order) }
    ensures grown { Grown table.old table.new }
{
    match lex(alloc, table, text) {
        Ok(tokens) => order_or_refusal(alloc, table, form, text.as_slice(), tokens.as_slice()),
        Err(fault) => Err(of_lexing(fault)),
    }
}

/// The order of the tokens of a command, or that the words are wrong.
fn order_or_refusal(
    alloc: Global,
    table: &SymTable,
    form: Form,
    text: &[u8],
    tokens: &[Token],
) -> Result<Order, CmdFault>
    requires { AreTokensKnown table.now tokens.now }
    ensures judged { (spelled : ListOf Spelled) → tokens.now ≡ map (numbered table.now) spelled → AreSpelledIn table.now spelled
        → IsJudged table.now (or_wrong (order_by (form_seen form) table.now text.now spelled)) result }
    ensures known { IfOk result (λ order. IsOrderKnown table.now order) }
{
    match order_by(alloc, table, form, text, tokens)? {
        Some(order) => Ok(order),
        None => Err(refused(30)),
    }
}

// ---- random words

/// Reads the command that queues random words.
fn read_random(alloc: Global, table: &mut SymTable, text: &List<u8>) -> Result<Order, CmdFault>
    requires { length text.now ≤ 2 ^ 26 }
    ensures reading { IsCommandRead table.new (read_arguments table.old text.now (random_lexed 0 0 text.now) (λ words. random_order)) result }
    ensures known { IfOk result (λ order. IsOrderKnown table.new order) }
    ensures grown { Grown table.old table.new }
{
    match lex_random(alloc, table, text) {
        Ok(numbers) => random_or_refusal(alloc, numbers.as_slice()),
        Err(fault) => Err(of_lexing(fault)),
    }
}

/// The order of the numbers of tokens, or that the words are wrong.
fn random_or_refusal(alloc: Global, numbers: &[Option<u64>]) -> Result<Order, CmdFault>
    ensures judged { (words : Texts) → IsJudged words (or_wrong (numbers_order numbers.now)) result }
    ensures known { (words : Texts) → IfOk result (λ order. IsOrderKnown words order) }
{
    match random_order(alloc, numbers)? {
        Some(order) => Ok(order),
        None => Err(refused(30)),
    }
}
