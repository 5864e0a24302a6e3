//! The sorts that the runs of a template name.
ghost use Rattle.std.specs.Prelude.{◌≡◌, ◌<◌, ◌≤◌, length, MatchOption};
ghost use Rattle.std.specs.Str.{bytes_eq};
ghost use Rattle.sw_template.specs.Prefix.{variable_count};
ghost use Rattle.sw_template_text.specs.Texts.{Names, IsUnknown};

use crate::naming::bytes_at;
use crate::words::NamedRun;
use sw_logic::{Name, Signature};
use sw_meaning::Run;

fn is_name(bytes: &[u8], name: &Name) -> bool
    ensures { result ≡ bytes_eq bytes.now name.now }
{
    bytes == name.as_str().as_bytes()
}

/// The sort that a run's name is.
pub fn sort_of(text: &[u8], sig: &Signature, run: &NamedRun) -> Option<u32>
    requires { length sig.now.sorts < 4294967296 }
    ensures { MatchOption result (IsUnknown sig.now text.now run.now) (Names sig.now text.now run.now) }
{
    let name = bytes_at(text, run.at, run.len);
    for (n, sort) in sig.sorts.as_slice().iter().enumerate() {
        if is_name(name, sort) {
            return Some(n as u32);
        }
    }
    None
}

/// The number of a run's variables.
fn variables_in(run: &Run) -> u128
    ensures is { result ≡ run.now.count }
    ensures most { result ≤ 4294967295 }
{
    u128::from(run.count)
}

/// The number of variables.
pub fn count_variables(runs: &[Run]) -> u128
    ensures { result ≡ variable_count runs.now }
{
    let mut count = 0;
    for run in runs {
        count += variables_in(run);
    }
    count
}
