//! The binding of a name at a place.
ghost use Rattle.std.specs.Prelude.{◌≡◌};
ghost use Rattle.name_check.specs.Names.{binding_of};

use crate::binding::Binding;
use crate::names::Globals;
use crate::scope::Locals;
use twe_base::Word;

/// The binding of a name if these names are in scope: a parameter, a local or a future, or else a global one. It takes no
/// memory.
pub fn look_up(globals: &Globals, locals: &Locals, text: &Word) -> Option<Binding>
    ensures { result ≡ binding_of globals.now locals.now text.now }
{
    match locals.local(text) {
        Some(local) => Some(Binding::Local(local)),
        None => match globals.global(text) {
            Some(global) => Some(Binding::Global(global)),
            None => None,
        },
    }
}
