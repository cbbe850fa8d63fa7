//! The pushdown machine that reads a program token by token.
ghost use Rattle.std.specs.Prelude.{◌≡◌, true, false, None, Some, ◌++◌, IfOk, OnOk, MatchBool, option_map};
ghost use Rattle.twe_parser.specs.inner.Machine.{after, finished, start};
ghost use Rattle.twe_parser.specs.inner.Terminals.{meets};

use crate::production::{epsilon_action, production_of};
use crate::symbol::{Nonterminal, Symbol, Terminal, terminal_of};
use crate::symbols::Symbols;
use crate::value_stacks::ValueStacks;
use std::alloc::Global;
use twe_ast::Item;
use twe_base::{List, Memory, Stack};
use twe_lexer::Token;

/// The state of the machine.
#[derive(Drop)]
pub(crate) struct Machine {
    /// The grammar symbols that are expected, the next one on top.
    pub(crate) stack: Stack<Symbol>,
    /// The semantic values of what was read.
    pub(crate) values: ValueStacks,
}

/// Whether a token is the one that a symbol expects.
fn meets(symbol: Symbol, next: Terminal) -> bool
    ensures { result ≡ meets symbol next }
{
    match (symbol, next) {
        (Symbol::Name, Terminal::Name) | (Symbol::Literal, Terminal::Literal) => true,
        (Symbol::Token(wanted), Terminal::Fixed(found)) => wanted.spelling() == found.spelling(),
        _ => false,
    }
}

/// Pushes all symbols, so that the first one is on top.
fn push_all(stack: &mut Stack<Symbol>, mut symbols: Symbols) -> Result<(), Memory>
    ensures { OnOk result (stack.new ≡ symbols ++ stack.old) }
{
    while let Some(symbol) = symbols.pop() {
        stack.push(symbol)?;
    }
    Ok(())
}

impl Machine {
    /// The machine before the first token: it expects a whole program.
    pub(crate) fn new(alloc: Global) -> Result<Self, Memory>
        ensures { IfOk result (λ machine. (machine.stack, machine.values) ≡ start) }
    {
        let mut stack = Stack::new(alloc);
        stack.push(Symbol::Expand(Nonterminal::Items))?;
        Ok(Machine {
            stack,
            values: ValueStacks::new(alloc),
        })
    }

    /// Reads the next token. Returns `false` if no program goes on with it; the state of the machine is then unspecified.
    pub(crate) fn take(&mut self, alloc: Global, token: Token) -> Result<bool, Memory>
        ensures { IfOk result (λ placed. MatchBool placed
            (after token self.old.stack self.old.values ≡ Some (self.new.stack, self.new.values))
            (after token self.old.stack self.old.values ≡ None)) }
    {
        let next = terminal_of(&token.kind);
        while let Some(symbol) = self.stack.pop() {
            match symbol {
                Symbol::Perform(action) => self.values.perform(alloc, action)?,
                Symbol::Expand(nonterminal) => {
                    if let Some(production) = production_of(nonterminal, next) {
                        push_all(&mut self.stack, production.right_side)?;
                        self.values.keep(token, production.mark)?;
                        return Ok(true);
                    }
                    let Some(action) = epsilon_action(nonterminal) else {
                        return Ok(false);
                    };
                    self.values.perform(alloc, action)?;
                }
                wanted => {
                    if !meets(wanted, next) {
                        return Ok(false);
                    }
                    self.values.keep(token, false)?;
                    return Ok(true);
                }
            }
        }
        Ok(false)
    }

    /// The declarations of the program, or `None` if the tokens so far are not a whole program.
    pub(crate) fn finish(self, alloc: Global) -> Result<Option<List<Item>>, Memory>
        ensures { IfOk result (λ items. items ≡ option_map (λ values. values.items) (finished self.stack self.values)) }
    {
        let Machine {
            mut stack,
            mut values,
        } = self;
        while let Some(symbol) = stack.pop() {
            match symbol {
                Symbol::Perform(action) => values.perform(alloc, action)?,
                Symbol::Expand(Nonterminal::Items) => {}
                _ => return Ok(None),
            }
        }
        Ok(Some(values.items))
    }
}
