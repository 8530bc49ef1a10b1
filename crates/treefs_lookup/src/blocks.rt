// Blocks, and the pointers in them.

ghost use Rattle.std.specs.Prelude.{◌≡◌, ◌+◌, ◌≤◌, [], MatchOption};
ghost use Rattle.treefs_lookup.specs.Readable.{readable};
ghost use Rattle.treefs_model.specs.Reading.{pointed};

use edit_list::Fs;
use store_types::BLOCK_LEN;
use treefs_format::pointers;
use xn_state::Store;

/// The newest bytes of a block, or `None` where the file system may not read it.
pub fn read_block<S: Store>(store: &S, fs: Fs, block: u32) -> Option<&[u8; BLOCK_LEN]>
    ensures { MatchOption result (readable (S.state_of store.now) fs.number block ≡ []) (λ bytes. readable (S.state_of store.now) fs.number block ≡ bytes.now) }
{
    match store.read(fs, block) {
        Ok(bytes) => Some(bytes),
        Err(_) => None,
    }
}

/// The pointer that begins at a byte of an inode or a node; 0 for none. A block 0, or one that may not be read, has none.
pub fn pointer_at<S: Store>(store: &S, fs: Fs, block: u32, offset: u16) -> u32
    requires { offset + 4 ≤ 512 }
    ensures { result ≡ pointed (readable (S.state_of store.now) fs.number) block offset }
{
    if block == 0 {
        return 0;
    }
    match read_block(store, fs, block) {
        Some(bytes) => pointers::pointer_at(bytes, usize::from(offset)),
        None => 0,
    }
}
