// What edits keep in every cut of the lives of a store.

ghost use Rattle.std.specs.Prelude.{◌≡◌, ◌≢◌, ◌⊎◌, ◌∷◌, [], ◌+◌, ◌<◌, ℕ, Bool, List, Some, Result, Ok, Contains, IsTrue, ◌^◌, ◌||◌, All, length, bytes_eq, ◌*◌, slice_index};
ghost use Rattle.xn_model.specs.Types.{Types};
ghost use Rattle.xn_model.specs.Lives.{BlockState, Life, Lives, StoreState, life_at};
ghost use Rattle.xn_model.specs.Rules.{IsConsistent};
ghost use Rattle.ffs_model.specs.Cuts.{Choice, IsCut, IsFullAt, latest, seen};
ghost use Rattle.ffs_model.specs.Cuts.{KeptFrom};
ghost use Rattle.ffs_model.specs.Edits.{HoldsOnly};
ghost use Rattle.xn_model.specs.BareDisks.{zeros};
ghost use Rattle.treefs_format.specs.Inodes.{pointers_of};
ghost use Rattle.treefs_format.specs.Nodes.{children_of, node_bytes};
ghost use Rattle.treefs_format.specs.Templates.{IsTree};
ghost use Rattle.xn_model.specs.Lists.{put};
ghost use Rattle.treefs_format.specs.Buckets.{is_whole, made, rewritten, with_number};
ghost use Rattle.treefs_format.specs.Records.{Entry, Record, entries_of, records_of};
ghost use Rattle.treefs_model.specs.Trees.{Bucket, counted, has_name, is_bare, live_count, records_at, tree_pointer, tree_shape};
ghost use Rattle.treefs_model.specs.Acts.{Act};
ghost use Rattle.treefs_model.specs.Acts.{Made, Ran};
ghost use Rattle.store_types.specs.declared.refusal.Refusal.{Refusal};
ghost use Rattle.treefs_model.specs.Tables.{IsPointed, MovesNone, PassesBy, ReadsTypes, StaysAt};
ghost use Rattle.xn_model.specs.Calls.{init_of};
ghost use Rattle.treefs_model.specs.Single.{IsSingle, KeepsSingle, Records};
ghost use Rattle.treefs_model.specs.Tables.{table_layout};
ghost use Rattle.treefs_model.specs.Edited.{Edited, FullBehind, IsOwn};
ghost use Rattle.treefs_model.specs.Follows.{Follows};
ghost use Rattle.treefs_model.specs.Led.{Ends, HasParents, IsApart, IsWithin, Led, Makes, StaysLed};
ghost use Rattle.treefs_model.specs.Places.{AllCovered, In, InPlace, IsWait, KeepsPlaces, Shape, at, pointer_at, with_block};
ghost use Rattle.treefs_model.specs.Links.{Counts, InodeAttached, InodeDropped, IsLed, KeepsLinks, Layout, KeepsTable, Less, ReadsAlike, ReadsSame, Spare};

/// A cut after an edit is a cut of before, or one of before and the edit.
pub fn edits_are_more()
    ensures { (T : Types) (fs : ℕ) (act : Act) (old new : StoreState) (number : ℕ) → IsConsistent T old → Made T fs act old new (Ok number) →
        Edited T act old.lives new.lives number }
{}

/// An edit keeps blocks in place: one of a block that had its wait, or doesn't count, or the wait itself. So does what others do, and what is begun, lands,
/// is synced or finished. In a cut that is full at the last holder of a path, this ends where it ends in newest.
pub fn blocks_stay_in_place()
    ensures edits { (T : Types) (S : Shape) (fs : ℕ) (covered held covered' held' : ℕ → Bool) (act : Act) (old new : Lives) (number : ℕ) →
        Edited T act old new number →
        KeepsPlaces S fs (In covered) (In held) (In covered') (In held') act old new → InPlace S fs (In covered) (In held) old →
        InPlace S fs (In covered') (In held') new }
    ensures others { (T : Types) (S : Shape) (fs : ℕ) (covered held covered' held' : ℕ → Bool) (old : Lives) (new : StoreState) → IsConsistent T new →
        KeptFrom fs old new.lives →
        ((x : ℕ) → In covered' x → In covered x × IsOwn fs new.lives x) → ((x : ℕ) → In held' x → In held x × In covered' x) →
        InPlace S fs (In covered) (In held) old → InPlace S fs (In covered') (In held') new.lives }
    ensures paths { (S : Shape) (fs : ℕ) (covered held : ℕ → Bool) (lives : Lives) (top : ℕ) (k : Choice) → InPlace S fs (In covered) (In held) lives →
        IsOwn fs lives top →
        ((m : List ℕ) → IsTrue (S.empty m) → (t o : ℕ) → S.pointer t m o ≡ 0) → ((x : ℕ) → In covered x → x ≢ 0) → IsCut lives k →
        (os : List ℕ) → AllCovered (In covered) S lives top os →
        ((o : ℕ) (rest : List ℕ) → os ≡ o ∷ rest → In held (at S lives (latest lives) top os)) → IsFullAt lives k (at S lives (latest lives) top os) →
        (o : ℕ) → at S lives (seen lives k) top (o ∷ os) ≡ at S lives (latest lives) top (o ∷ os) }
{}

/// A new block that counts is attached; then it has its wait, behind its owner.
pub fn new_blocks_get_in_place()
    ensures attached { (T : Types) (S : Shape) (fs : ℕ) (covered held : ℕ → Bool) (act : Act) (old new : Lives) (number x : ℕ) (bytes : List ℕ) →
        Edited T act old new number →
        InPlace S fs (In covered) (In held) old → HoldsOnly old x bytes → IsTrue (S.empty bytes) → IsTrue (S.empty []) → x ≢ act.block → IsOwn fs old x →
        (In covered x → ⊥) →
        ((p o : ℕ) → pointer_at S old (latest old) p o ≡ x → ⊥) →
        ((o y : ℕ) → In (with_block covered x) y → pointer_at S new (latest new) act.block o ≡ y → (pointer_at S old (latest old) act.block o ≡ y) ⊎ (y ≡ x)) →
        (In covered act.block → In held act.block) → InPlace S fs (In (with_block covered x)) (In held) new }
    ensures waited { (T : Types) (S : Shape) (fs : ℕ) (covered held : ℕ → Bool) (act : Act) (old new : Lives) (number : ℕ) → Edited T act old new number →
        InPlace S fs (In covered) (In held) old → IsWait S act old new → In covered act.block → InPlace S fs (In covered) (In (with_block held act.block)) new }
{}

/// What edits of records and of links leave of the links of a number.
pub fn records_keep_links()
    ensures ended { (T : Types) (L : Layout) (N : ℕ) (act : Act) (old new : Lives) (number n : ℕ) → Edited T act old new number → Counts L N act old new n 1 0 →
        L.links (latest new act.block) ≡ L.links (latest old act.block) → KeepsLinks L N old n → KeepsLinks L N new n × Less L N new act.block n }
    ensures less { (T : Types) (L : Layout) (N : ℕ) (act : Act) (old new : Lives) (number n c : ℕ) → Edited T act old new number →
        Counts L N act old new n 0 0 →
        L.leaf (latest old) n ≡ act.block → act.behind ≡ Some c → L.links (latest new act.block) + 1 ≡ L.links (latest old act.block) →
        KeepsLinks L N old n → Less L N old c n → KeepsLinks L N new n }
    ensures more { (T : Types) (L : Layout) (N : ℕ) (act : Act) (old new : Lives) (number n : ℕ) → Edited T act old new number → Counts L N act old new n 0 0 →
        L.leaf (latest old) n ≡ act.block → ((k : Choice) → IsCut old k → FullBehind old k act.behind → IsLed L old k n) →
        L.links (latest new act.block) ≡ L.links (latest old act.block) + 1 → KeepsLinks L N old n → KeepsLinks L N new n × Spare L N new act.block n }
    ensures made { (T : Types) (L : Layout) (N : ℕ) (act : Act) (old new : Lives) (number n y : ℕ) → Edited T act old new number →
        Counts L N act old new n 0 1 →
        L.links (latest new act.block) ≡ L.links (latest old act.block) → act.behind ≡ Some y → KeepsLinks L N old n → Spare L N old y n →
        KeepsLinks L N new n }
    ensures named { (L : Layout) (N : ℕ) (lives : Lives) (n b : ℕ) → KeepsLinks L N lives n → b < N → 0 < L.records n b (latest lives b) →
        ((k : Choice) → IsCut lives k → L.leaf (seen lives k) n ≢ 0 → L.leaf (seen lives k) n ≡ L.leaf (latest lives) n) → (k : Choice) → IsCut lives k →
        IsFullAt lives k b → IsLed L lives k n }
{}

/// What edits of the table leave of them: a number's inode is attached, or dropped.
pub fn tables_keep_links()
    ensures attached { (T : Types) (L : Layout) (N : ℕ) (act : Act) (old new : Lives) (number n i : ℕ) → Edited T act old new number → act.block < N →
        L.records n act.block (latest new act.block) ≡ L.records n act.block (latest old act.block) → InodeAttached L act old new n i →
        KeepsLinks L N old n → KeepsLinks L N new n × Spare L N new act.block n }
    ensures dropped { (T : Types) (L : Layout) (N : ℕ) (act : Act) (old new : Lives) (number n : ℕ) → Edited T act old new number → act.block < N →
        L.records n act.block (latest new act.block) ≡ L.records n act.block (latest old act.block) → InodeDropped L act old new n →
        KeepsLinks L N old n → KeepsLinks L N new n }
{}

/// What others do, and writes, leave the links of a number as they are.
pub fn others_keep_links()
    ensures { (T : Types) (L : Layout) (N fs : ℕ) (old : Lives) (new : StoreState) (n : ℕ) → IsConsistent T new → (kept : KeptFrom fs old new.lives) →
        ReadsSame L fs old new.lives kept n → KeepsLinks L N old n → KeepsLinks L N new.lives n }
{}

/// Pointers stay at their offsets over an edit that moves none, and over what others do. What a cut leads to, and what is pointed to in newest, newest leads to
/// by the same path. A path that passes by an edited block is the same after it, in each cut and in newest.
pub fn paths_stay()
    ensures offsets { (T : Types) (S : Shape) (fs : ℕ) (act : Act) (old new : StoreState) (number : ℕ) → ReadsTypes T S → IsConsistent T old →
        IsConsistent T new →
        Edited T act old.lives new.lives number → MovesNone S act old.lives new.lives → StaysAt S fs old.lives → StaysAt S fs new.lives }
    ensures others { (T : Types) (S : Shape) (fs : ℕ) (old : Lives) (new : StoreState) → IsConsistent T new → KeptFrom fs old new.lives → StaysAt S fs old →
        StaysAt S fs new.lives }
    ensures same { (T : Types) (S : Shape) (state : StoreState) (fs top : ℕ) (k : Choice) → ReadsTypes T S → IsConsistent T state →
        StaysAt S fs state.lives → IsCut state.lives k →
        ((os : List ℕ) → at S state.lives (seen state.lives k) top os ≢ 0 → IsOwn fs state.lives (at S state.lives (seen state.lives k) top os)) →
        ((o : ℕ) → pointer_at S state.lives (seen state.lives k) 0 o ≡ 0) → (os : List ℕ) (x : ℕ) → at S state.lives (seen state.lives k) top os ≡ x → x ≢ 0 →
        (os ≡ []) ⊎ IsPointed S state.lives x → at S state.lives (latest state.lives) top os ≡ x }
    ensures passed { (T : Types) (S : Shape) (fs top : ℕ) (act : Act) (old new : StoreState) (number : ℕ) → ReadsTypes T S → IsConsistent T old →
        IsConsistent T new →
        Edited T act old.lives new.lives number → StaysAt S fs old.lives → IsPointed S old.lives act.block → act.block ≢ 0 →
        ((k : Choice) → IsCut old.lives k → (os : List ℕ) → at S old.lives (seen old.lives k) top os ≢ 0 →
        IsOwn fs old.lives (at S old.lives (seen old.lives k) top os)) →
        ((k : Choice) (o : ℕ) → IsCut old.lives k → pointer_at S old.lives (seen old.lives k) 0 o ≡ 0) → (os : List ℕ) → PassesBy S old.lives top act.block os →
        ((k : Choice) → IsCut new.lives k → at S new.lives (seen new.lives k) top os ≡ at S old.lives (seen old.lives k) top os)
        × (at S new.lives (latest new.lives) top os ≡ at S old.lives (latest old.lives) top os) }
{}

/// What a cut takes along, of the blocks of a set up to a number, it takes along after the last edit of a call, one of the block that takes them along.
pub fn entries_go_along()
    ensures last { (T : Types) (act : Act) (old new : Lives) (number : ℕ) (those those' : ℕ → ℕ → Bool) → Edited T act old new number →
        ((x : ℕ) (t : BlockState) → IsTrue (those' x t.entry) →
        IsTrue (those x t.entry) ⊎ ((x ≡ act.block) ⊎ ((act.behind ≡ Some x) ⊎ Contains act.edit.drops x))) →
        Follows old (λ k. IsFullAt old k act.block) (λ x t. IsTrue (those x t.entry)) →
        Follows new (λ k. IsFullAt new k act.block) (λ x t. IsTrue (those' x t.entry)) }
    ensures others { (fs a : ℕ) (old new : Lives) (those those' : ℕ → ℕ → Bool) → KeptFrom fs old new →
        ((x : ℕ) (m : Life) (t : BlockState) → life_at new x ≡ Some m → IsTrue (those' x t.entry) → IsTrue (those x t.entry) × (m.fs ≡ Some fs)) →
        Follows old (λ k. IsFullAt old k a) (λ x t. IsTrue (those x t.entry)) → Follows new (λ k. IsFullAt new k a) (λ x t. IsTrue (those' x t.entry)) }
{}

/// What names lead to stays so, over an edit that makes a record and one that ends one. A directory whose parents do not lead to a number is led to without it.
pub fn names_stay_led()
    ensures edits { (T : Types) (edge : (ℕ → List ℕ) → ℕ → ℕ → Bool) (same : Lives → Choice → ℕ → Bool) (act : Act) (old new : Lives) (number d n : ℕ) →
        Edited T act old new number →
        ((k j : Choice) → IsWithin new k j → IsWithin old k j × (IsFullAt new k act.block → IsFullAt new j act.block)) →
        let E = λ (v : ℕ → List ℕ) (c x : ℕ). IsTrue (edge v c x) in
        let Same = λ (lives : Lives) (k : Choice) (x : ℕ). IsTrue (same lives k x) in
        StaysLed E Same old → (Makes E Same act old new d n → StaysLed E Same new) × (Ends E Same act old new d n → StaysLed E Same new) }
    ensures apart { (edge fewer : ℕ → ℕ → Bool) (parent : ℕ → ℕ) (n : ℕ) → HasParents (λ d c. IsTrue (edge d c)) parent n →
        ((d c : ℕ) → IsTrue (edge d c) → c ≢ n → IsTrue (fewer d c)) → (c : ℕ) → Led (λ d c. IsTrue (edge d c)) c → IsApart parent n c →
        Led (λ d c. IsTrue (fewer d c)) c }
{}

/// What blocks in place say of the table: a cut that is full at the holder of a number's pointer leads to the number; an edit of another block leaves the table.
/// And links that are read in another way, that agrees, are kept.
pub fn tables_are_read()
    ensures alike { (L L' : Layout) (N n : ℕ) (lives : Lives) → ReadsAlike L L' lives n → KeepsLinks L N lives n → KeepsLinks L' N lives n }
    ensures kept { (T : Types) (S : Shape) (fs top : ℕ) (steps : ℕ → List ℕ) (records : ℕ → ℕ → List ℕ → ℕ) (links : List ℕ →
        ℕ) (act : Act) (old new : StoreState) (number : ℕ) →
        ReadsTypes T S → IsConsistent T old → IsConsistent T new → Edited T act old.lives new.lives number → StaysAt S fs old.lives →
        IsPointed S old.lives act.block →
        act.block ≢ 0 →
        ((k : Choice) → IsCut old.lives k → (os : List ℕ) → at S old.lives (seen old.lives k) top os ≢ 0 →
        IsOwn fs old.lives (at S old.lives (seen old.lives k) top os)) →
        ((k : Choice) (o : ℕ) → IsCut old.lives k → pointer_at S old.lives (seen old.lives k) 0 o ≡ 0) → (n : ℕ) →
        PassesBy S old.lives top act.block (steps n) →
        KeepsTable (table_layout S old.lives top steps records links) old.lives new.lives n }
{}

/// In no cut a directory has a name in two buckets, nor twice in one; so it is kept.
pub fn names_are_single()
    ensures cuts { (R : Records) (directory : ℕ → ℕ) (lives : Lives) → IsSingle R directory lives → (k : Choice) → IsCut lives k →
        (b c : ℕ) (name : List ℕ) → directory b ≢ 0 →
        directory b ≡ directory c → IsTrue (R.live b (seen lives k b) name) → IsTrue (R.live c (seen lives k c) name) → b ≡ c }
    ensures edits { (T : Types) (R : Records) (directory : ℕ → ℕ) (act : Act) (old new : Lives) (number : ℕ) → Edited T act old new number →
        (directory act.block ≡ 0) ⊎ KeepsSingle R directory act old new → IsSingle R directory old → IsSingle R directory new }
    ensures others { (T : Types) (R : Records) (directory directory' : ℕ → ℕ) (fs : ℕ) (old : Lives) (new : StoreState) → IsConsistent T new →
        KeptFrom fs old new.lives →
        ((b : ℕ) → directory' b ≢ 0 → (directory' b ≡ directory b) × IsOwn fs new.lives b) → IsSingle R directory old → IsSingle R directory' new.lives }
{}

/// The file system begins a block: what is in place, where pointers stand and links are as before.
pub fn begun_blocks_change_nothing()
    ensures places { (T : Types) (state new : StoreState) (x t : ℕ) (bytes : List ℕ) (made : ℕ × ℕ) (S : Shape) (fs : ℕ) (covered held : ℕ → Bool) →
        IsConsistent T state →
        init_of T state x t bytes ≡ Ok (made, new) → ((o : ℕ) → pointer_at S new.lives (latest new.lives) made.0 o ≡ 0) → ((y : ℕ) → In covered y → y ≢ 0) →
        InPlace S fs (In covered) (In held) state.lives → InPlace S fs (In covered) (In held) new.lives }
    ensures offsets { (T : Types) (state new : StoreState) (x t : ℕ) (bytes : List ℕ) (made : ℕ × ℕ) (S : Shape) (fs : ℕ) → IsConsistent T state →
        init_of T state x t bytes ≡ Ok (made, new) → ((o : ℕ) → pointer_at S new.lives (latest new.lives) made.0 o ≡ 0) → StaysAt S fs state.lives →
        StaysAt S fs new.lives }
    ensures links { (T : Types) (state new : StoreState) (x t : ℕ) (bytes : List ℕ) (made : ℕ × ℕ) (L : Layout) (N n : ℕ) → IsConsistent T state →
        init_of T state x t bytes ≡ Ok (made, new) →
        ((k : Choice) → IsCut new.lives k → (L.leaf (seen new.lives k) n ≡ L.leaf (seen state.lives k) n) × (L.leaf (seen new.lives k) n ≢ made.0)) →
        L.leaf (latest new.lives) n ≡ L.leaf (latest state.lives) n → ((m : List ℕ) → L.records n made.0 m ≡ 0) → KeepsLinks L N state.lives n →
        KeepsLinks L N new.lives n }
{}

/// The pointers of nodes and inodes are what the two types own; a block that is bare but for its byte 0 has none, and no record.
pub fn trees_are_read()
    ensures pointers { (T : Types) (node inode : ℕ) → IsTree T node inode → node ≢ inode → ReadsTypes T (tree_shape node inode) }
    ensures bare { (node inode t o : ℕ) (m : List ℕ) → IsTrue (is_bare m) → tree_pointer node inode t m o ≡ 0 }
    ensures empty { (buckets : ℕ → Bucket) (n b : ℕ) (m : List ℕ) → IsTrue (is_bare m) → records_at buckets n b m ≡ 0 }
    ensures node { (ty : ℕ) → IsTrue (is_bare (node_bytes ty)) }
    ensures bucket { IsTrue (is_bare (zeros 512)) }
{}

/// How many live records of a number a bucket has, and whether it has a record of a name, once a record is made, the number of one is set, or the bucket is
/// rewritten.
pub fn records_are_counted()
    ensures made { (bytes : List ℕ) (e : Entry) (n : ℕ) → IsTrue (is_whole bytes) → All (λ b. b < 256) bytes → e.number < 2 ^ 32 → 0 < length e.name →
        live_count n (entries_of (made bytes e)) ≡ live_count n (entries_of bytes) + counted n e }
    ensures set { (bytes : List ℕ) (r : Record) (number n : ℕ) → All (λ b. b < 256) bytes → Contains (records_of bytes) r → number < 2 ^ 32 →
        live_count n (entries_of (with_number bytes r.offset number)) + counted n r.entry
        ≡ live_count n (entries_of bytes) + counted n (record { number = number; name = r.entry.name }) }
    ensures rewritten { (bytes : List ℕ) (n : ℕ) → All (λ b. b < 256) bytes →
        live_count n (entries_of (put bytes 0 (rewritten bytes))) ≡ live_count n (entries_of bytes) }
    ensures made_names { (bytes name : List ℕ) (e : Entry) → IsTrue (is_whole bytes) → All (λ b. b < 256) bytes → e.number < 2 ^ 32 → 0 < length e.name →
        has_name (entries_of (made bytes e)) name ≡ (has_name (entries_of bytes) name || bytes_eq e.name name) }
    ensures set_names { (bytes name : List ℕ) (r : Record) (number : ℕ) → All (λ b. b < 256) bytes → Contains (records_of bytes) r → number < 2 ^ 32 →
        has_name (entries_of (with_number bytes r.offset number)) name ≡ has_name (entries_of bytes) name }
{}

/// Which pointers of an inode or a node are read at which offsets; and where the pointers of the bytes are the same, the same are read at each offset.
pub fn pointers_are_read()
    ensures inode { (node inode j : ℕ) (m : List ℕ) → j < 20 → tree_pointer node inode inode m (48 + 4 * j) ≡ slice_index (pointers_of m) j }
    ensures node { (node inode j : ℕ) (m : List ℕ) → j < 127 → tree_pointer node inode node m (4 + 4 * j) ≡ slice_index (children_of m) j }
    ensures inode_same { (node inode o : ℕ) (m changed : List ℕ) → node ≢ inode → pointers_of changed ≡ pointers_of m →
        tree_pointer node inode inode changed o ≡ tree_pointer node inode inode m o }
    ensures node_same { (node inode o : ℕ) (m changed : List ℕ) → node ≢ inode → children_of changed ≡ children_of m →
        tree_pointer node inode node changed o ≡ tree_pointer node inode node m o }
{}
