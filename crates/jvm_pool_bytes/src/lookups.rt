//! Entries by the index at which they start.

ghost use Rattle.jvm_pool_bytes.specs.Raws.{raw_at, raw_starts};
ghost use Rattle.std.specs.Prelude.{◌≡◌, slice_get, option_copied, IfSome, None, Some};

use crate::raws::RawEntry;
use indexmap::IndexSet;

/// The position of the entry that starts at an index.
fn position_of(starts: &[u16], raws: &IndexSet<RawEntry>, index: u16) -> Option<usize>
    requires { starts.now ≡ raw_starts 1 raws.now.keys }
    ensures found { IfSome result (λ position. slice_get starts.now position ≡ Some index) }
    ensures none { result ≡ None → raw_at 1 raws.now.keys index ≡ None }
{
    starts.binary_search(&index).ok()
}

/// The entry that starts at an index: `None` exactly where none does. `starts` has the index of each entry.
pub fn entry_at<'a>(
    raws: &'a IndexSet<RawEntry>,
    starts: &[u16],
    index: u16,
) -> Option<&'a RawEntry>
    requires { starts.now ≡ raw_starts 1 raws.now.keys }
    ensures { option_copied result ≡ raw_at 1 raws.now.keys index }
{
    let position = position_of(starts, raws, index)?;
    raws.get_index(position)
}
