//! Flags of tasks.
ghost use Rattle.std.specs.Prelude.{◌≡◌, if◌then◌else◌};
ghost use Rattle.twe_draw.specs.picture.Choice.{how_many, is_flagged};

/// Whether the flag of a task is set.
pub(crate) fn is_flagged(flags: &[bool], task: usize) -> bool
    ensures { result ≡ is_flagged flags.now task }
{
    match flags.get(task) {
        None => false,
        Some(flag) => *flag,
    }
}

/// One if a flag is set.
fn one_if(flag: bool) -> usize
    ensures { result ≡ (if flag then 1 else 0) }
{
    if flag { 1 } else { 0 }
}

/// How many flags are set.
pub fn how_many(flags: &[bool]) -> usize
    ensures { result ≡ how_many flags.now }
{
    let mut count = 0;
    for flag in flags {
        count += one_if(*flag);
    }
    count
}
