// The last name of a path.

ghost use Rattle.std.specs.Prelude.{◌≡◌, ◌≢◌, ◌<◌, ◌≤◌, ◌-◌, All, drop, length, slice_index};
ghost use Rattle.treefs_paths.specs.Components.{IsParted};

/// The last name of a path, what stands before it, and the slashes behind it.
#[derive(Clone, Copy)]
pub struct Parts<'p> {
    pub before: &'p [u8],
    pub name: &'p [u8],
    pub behind: &'p [u8],
}

/// Where the slashes at the end of a path begin.
fn slashes_start(path: &[u8]) -> usize
    ensures within { result ≤ length path.now }
    ensures slashes { All (λ byte. byte ≡ 47) (drop result path.now) }
    ensures before { 0 < result → slice_index path.now (result - 1) ≢ 47 }
{
    for passed in 0..path.len() {
        let end = path.len() - passed;
        if path[end - 1] != b'/' {
            return end;
        }
    }
    0
}

/// Where the name at the end of a path begins: behind its last slash.
fn name_start(path: &[u8]) -> usize
    ensures within { result ≤ length path.now }
    ensures name { All (λ byte. byte ≢ 47) (drop result path.now) }
    ensures before { 0 < result → slice_index path.now (result - 1) ≡ 47 }
{
    for passed in 0..path.len() {
        let start = path.len() - passed;
        if path[start - 1] == b'/' {
            return start;
        }
    }
    0
}

/// The last name of a path, what stands before it, and the slashes behind it. A path of slashes alone has none.
pub fn split_path(path: &[u8]) -> Parts<'_>
    ensures { IsParted path.now result.before.now result.name.now result.behind.now }
{
    let (names, behind) = path.split_at(slashes_start(path));
    let (before, name) = names.split_at(name_start(names));
    Parts {
        before,
        name,
        behind,
    }
}
