//! What each rule says, for people: what is wrong at the place where it fails, and what it asks.
ghost use Rattle.std.specs.Prelude.{◌≡◌};
ghost use Rattle.explain_pages.specs.names.Sentences.{asked, asked_effect, asked_name, asked_text, wrong, wrong_effect, wrong_name, wrong_text};

use effect_check::ERule;
use name_check::NRule;
use twe_frontend::RuleName;
use twe_parser::SRule;

/// What is wrong where a rule of the text fails.
fn wrong_text(rule: SRule) -> &'static [u8]
    ensures { result.now ≡ wrong_text rule }
{
    match rule {
        SRule::S1 => b"this byte may not stand in a text",
        SRule::S2 => b"no program goes on with this",
        SRule::S3 => b"the text ends too early",
        SRule::S4 => b"this number is too large",
        SRule::S5 => b"this is nested too deep, or is one operator too many",
        SRule::S6 => b"this comment has no end",
    }
}

/// What is wrong where a rule of names fails.
fn wrong_name(rule: NRule) -> &'static [u8]
    ensures { result.now ≡ wrong_name rule }
{
    match rule {
        NRule::N1 => b"this name is not known here",
        NRule::N2 => b"this name is taken already",
        NRule::N3 => b"this is of another kind or type than is needed here",
        NRule::N4 => b"this has more or fewer arguments than there are parameters",
        NRule::N5 => b"this body can end without a return",
        NRule::N6 => b"this can not be assigned",
        NRule::N7 => b"this is more than the limit allows",
        NRule::N8 => b"there is no main",
        NRule::N9 => b"this is a second * in one path",
    }
}

/// What is wrong where a rule on effects fails.
fn wrong_effect(rule: ERule) -> &'static [u8]
    ensures { result.now ≡ wrong_effect rule }
{
    match rule {
        ERule::E1 => b"this task does not have the effect of this here",
        ERule::E2 => b"this call needs an effect that the task does not have here",
        ERule::E3 => b"this spawn needs an effect that the task does not have here",
        ERule::E4 => b"on some way to this join no task is out",
        ERule::E5 => b"on some way to this spawn its task is out already",
        ERule::E6 => b"a deterministic task must not do this",
        ERule::E7 => b"a deterministic task spawns one that is not deterministic",
        ERule::E8 => b"this method does not have the effect of this",
    }
}

/// What is wrong where a rule fails.
pub fn wrong(rule: RuleName) -> &'static [u8]
    ensures { result.now ≡ wrong rule }
{
    match rule {
        RuleName::Text(rule) => wrong_text(rule),
        RuleName::Name(rule) => wrong_name(rule),
        RuleName::Effect(rule) => wrong_effect(rule),
    }
}

/// What a rule of the text asks.
fn asked_text(rule: SRule) -> &'static [u8]
    ensures { result.now ≡ asked_text rule }
{
    match rule {
        SRule::S1 => {
            b"a text has tabs, line ends and the printing characters of ASCII, in its comments too"
        }
        SRule::S2 => {
            b"some program begins with all that stands before this: the mistake is here or before it"
        }
        SRule::S3 => {
            b"up to its end it is the beginning of a program: a bracket, a statement or a declaration is open"
        }
        SRule::S4 => {
            b"a number is at most 2147483647, or 2147483648 directly after a minus sign of its own"
        }
        SRule::S5 => {
            b"at most 200 brackets are open at once, and a statement has at most 200 operators"
        }
        SRule::S6 => b"a comment that begins with /* goes on up to a */, and none follows",
    }
}

/// What a rule of names asks.
fn asked_name(rule: NRule) -> &'static [u8]
    ensures { result.now ≡ asked_name rule }
{
    match rule {
        NRule::N1 => {
            b"it is declared nowhere, or only later or in another block; an index in an effect is a parameter"
        }
        NRule::N2 => {
            b"a name stands for one thing: the program declares it once, and no local or parameter hides it"
        }
        NRule::N3 => {
            b"kinds are region, cell, array, method, task, local, future; types are int, boolean, or no value"
        }
        NRule::N4 => {
            b"a call, a spawn and an executeLater give one argument to each parameter of what they name"
        }
        NRule::N5 => {
            b"a method or a task that returns an int ends with a return on each of its ways"
        }
        NRule::N6 => b"a parameter and a final local keep the value that they begin with",
        NRule::N7 => {
            b"limits: 65536 cells, 131072 nodes; 32 elements of a path, 8 effects, 4 parameters"
        }
        NRule::N8 => {
            b"a program has a task that is declared as task void main(), without parameters"
        }
        NRule::N9 => b"a path has at most one *, which stands for any elements",
    }
}

/// What a rule on effects asks.
fn asked_effect(rule: ERule) -> &'static [u8]
    ensures { result.now ≡ asked_effect rule }
{
    match rule {
        ERule::E1 => {
            b"a task touches what its effects declare, apart from what a spawned task has until it is joined"
        }
        ERule::E2 => {
            b"a task has the effects of what it calls, apart from what a spawned task has until it is joined"
        }
        ERule::E3 => {
            b"a spawned task takes its effects from its maker, who has them back when it joins the task"
        }
        ERule::E4 => b"on each way to a join its task was spawned, and was not joined since then",
        ERule::E5 => b"on each way from a spawn to itself, as around a loop, its task is joined",
        ERule::E6 => {
            b"it makes tasks by spawn and waits by join: the order of executeLater and getValue is open"
        }
        ERule::E7 => b"each task that a deterministic task spawns is declared deterministic too",
        ERule::E8 => {
            b"a method touches what its own effects declare, in the methods that it calls too"
        }
    }
}

/// What a rule asks.
pub fn asked(rule: RuleName) -> &'static [u8]
    ensures { result.now ≡ asked rule }
{
    match rule {
        RuleName::Text(rule) => asked_text(rule),
        RuleName::Name(rule) => asked_name(rule),
        RuleName::Effect(rule) => asked_effect(rule),
    }
}
