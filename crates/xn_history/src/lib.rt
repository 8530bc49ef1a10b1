//! What a store's replies tell of its blocks, and what every image keeps of that.
//! May touch: nothing.
#![tactic(auto)]

ghost use Rattle.std.specs.Prelude.{◌≡◌, ◌≢◌, ◌≤◌, ◌<◌, ◌⊎◌, ℕ, List, [], ◌∷◌, Option, None, Some, false, length, take};
ghost use Rattle.std.specs.List.{AllByRecursion};
ghost use Rattle.xn_model.specs.Images.{IsSound, block_of};
ghost use Rattle.xn_model.specs.Lives.{Lives};
ghost use Rattle.xn_model.specs.Calls.{floor_of};
ghost use Rattle.xn_model.specs.Mounts.{IsRecovered};
ghost use Rattle.xn_model.specs.Worlds.{World, types_now, types_there, Event, Client, Init, Read, Floor, Drain, Finish, Crash, Reply, Started, Bytes, FloorIs};
ghost use Rattle.xn_model.specs.Worlds.{Drained, Finished, IsEvent, Step, Run, MayLeave, mounted, left, is_crash};
ghost use Rattle.xn_model.specs.Rules.{Holds, IsInFileSystem};
ghost use Rattle.xn_model.specs.Rows.{first_row, dropped_row, landed_row, lost_row, installed_row};
ghost use Rattle.xn_history.specs.Histories.{History, Histories, newest_bytes, histories_after};
ghost use Rattle.xn_history.specs.Moments.{RunWhere, Anything, IsMoment, AreHistoriesOf};
ghost use Rattle.xn_history.specs.Promises.{IsReached, EveryImageHas, HoldsAccepted, ImageHolds, StaysTold};
ghost use Rattle.xn_history.specs.Promises.{LivesOn, IsForgotten, IsDropped, IsLost, IsNamedChain};
ghost use Rattle.xn_history.specs.Promises.{Spares, LeavesAlone, IsNoEditBy, IsTold, IsWithoutCrash, AreToldBelow};
ghost use Rattle.xn_history.specs.Rows.{row_leaves};

/// Every run from a mount of a sound image has its histories, and so has every run from there on, and
/// every step.
pub fn runs_have_histories()
    ensures mount { (disk w : World) (lives : Lives) (es : List Event) (rs : List Reply) →
        IsSound (types_there disk) (length disk.image) (block_of disk.image) → IsRecovered (types_there disk) disk.image lives → AllByRecursion IsEvent es →
        Run (mounted disk lives) es rs w → (hs : Histories) × IsMoment w hs }
    ensures run { (w after : World) (hs : Histories) (es : List Event) (rs : List Reply) → IsMoment w hs → AllByRecursion IsEvent es → Run w es rs after →
        (hs' : Histories) × RunWhere Anything w hs es rs after hs' × IsMoment after hs' }
    ensures step { (w after : World) (hs : Histories) (e : Event) (r : Reply) → IsMoment w hs → IsEvent e → Step w e r after →
        IsMoment after (histories_after hs e r after.state.lives) }
{}

/// At every moment the rules hold, and the histories are those of the lives: what isn't told durable
/// is what is pending.
pub fn histories_fit()
    ensures rules { (w : World) (hs : Histories) → IsMoment w hs → Holds w }
    ensures fit { (w : World) (hs : Histories) → IsMoment w hs → AreHistoriesOf w.state.lives hs }
{}

/// A life begins on a block that has no history.
pub fn lives_begin_anew()
    ensures { (w after : World) (hs : Histories) (fs ty b entry : ℕ) (bytes : List ℕ) → IsMoment w hs →
        Step w (Client fs (Init ty bytes)) (Started b entry) after → hs b ≡ None }
{}

/// At every moment, also after crashes, each block that the roots reach in an image that a crash may
/// leave holds a state that its present life has accepted: the last that was told durable, or a later one.
/// So it is in the newest bytes.
pub fn images_hold_what_was_told()
    ensures left { (w : World) (hs : Histories) (image : List (List ℕ)) → IsMoment w hs → MayLeave w image → ImageHolds w image hs }
    ensures newest { (w : World) (hs : Histories) → IsMoment w hs → ImageHolds w w.image hs }
{}

/// What was told durable stays told, through crashes too, until the life ends. It ends when its file
/// system forgets it, when a state that drops it is told durable, or at a crash that leaves an image
/// which doesn't reach it.
pub fn told_stays_told()
    ensures step { (w after : World) (hs : Histories) (e : Event) (r : Reply) (c : ℕ) (h : History) → IsMoment w hs → IsEvent e → Step w e r after →
        hs c ≡ Some h →
        StaysTold h (histories_after hs e r after.state.lives c)
        ⊎ ((histories_after hs e r after.state.lives c ≡ None) × (IsForgotten c e r ⊎ (IsDropped hs c e r ⊎ IsLost w c e))) }
    ensures run { (w after : World) (hs hs' : Histories) (es : List Event) (rs : List Reply) (c : ℕ) (h : History) → IsMoment w hs → AllByRecursion IsEvent es →
        RunWhere (LivesOn c) w hs es rs after hs' → hs c ≡ Some h → StaysTold h (hs' c) }
{}

/// A crash ends no life of a block that is reached in the image that it leaves, and no other life goes
/// on. What that image holds is told durable, and what was accepted after it is lost.
pub fn crashes_keep_what_is_reached()
    ensures goes_on { (w after : World) (hs : Histories) (kept : List ℕ) (r : Reply) (c u : ℕ) → IsMoment w hs → Step w (Crash kept) r after →
        IsReached w (left w kept) c u →
        (h : History) × (hs c ≡ Some h) × StaysTold h (histories_after hs (Crash kept) r after.state.lives c) }
    ensures found { (w after : World) (hs : Histories) (kept : List ℕ) (r : Reply) (c : ℕ) (h : History) → IsMoment w hs → Step w (Crash kept) r after →
        histories_after hs (Crash kept) r after.state.lives c ≡ Some h →
        IsTold (histories_after hs (Crash kept) r after.state.lives) c h.ty (block_of (left w kept) c) }
    ensures reached { (w after : World) (hs : Histories) (kept : List ℕ) (r : Reply) (c : ℕ) (h : History) → IsMoment w hs → Step w (Crash kept) r after →
        histories_after hs (Crash kept) r after.state.lives c ≡ Some h → IsReached w (left w kept) c h.ty }
{}

/// Until the next crash, a state that isn't told durable has no number below a floor that was
/// answered, and floors never fall.
pub fn floors_tell()
    ensures told { (w after : World) (hs hs' : Histories) (fs n : ℕ) (es : List Event) (rs : List Reply) → IsMoment w hs →
        AllByRecursion IsEvent (Client fs Floor ∷ es) →
        RunWhere IsWithoutCrash w hs (Client fs Floor ∷ es) (FloorIs n ∷ rs) after hs' → AreToldBelow fs n hs' }
    ensures rises { (w after : World) (hs : Histories) (e : Event) (r : Reply) (fs : ℕ) → IsMoment w hs → IsEvent e → is_crash e ≡ false → Step w e r after →
        floor_of w.state fs ≤ floor_of after.state fs }
{}

/// A block whose chain of owners names it in every state from the last told one on is reached in every
/// image that a crash may leave, and its life goes on, through crashes too, while no call drops it or one
/// of its owners. So no image misses a state of it that was told durable.
pub fn attached_lives_go_on()
    ensures reached { (w : World) (hs : Histories) (image : List (List ℕ)) (c : ℕ) (blocks : List ℕ) (h : History) → IsMoment w hs → MayLeave w image →
        IsNamedChain (types_now w) hs (c ∷ blocks) → hs c ≡ Some h → IsReached w image c h.ty }
    ensures goes_on { (w after : World) (hs hs' : Histories) (es : List Event) (rs : List Reply) (c : ℕ) (blocks : List ℕ) (h : History) → IsMoment w hs →
        AllByRecursion IsEvent es →
        IsNamedChain (types_now w) hs (c ∷ blocks) → hs c ≡ Some h → RunWhere (Spares (c ∷ blocks)) w hs es rs after hs' →
        StaysTold h (hs' c) × IsNamedChain (types_now after) hs' (c ∷ blocks) }
    ensures held { (w after : World) (hs hs' : Histories) (es : List Event) (rs : List Reply) (c : ℕ) (blocks : List ℕ) (h : History) → IsMoment w hs →
        AllByRecursion IsEvent es →
        IsNamedChain (types_now w) hs (c ∷ blocks) → hs c ≡ Some h → RunWhere (Spares (c ∷ blocks)) w hs es rs after hs' →
        (image : List (List ℕ)) → MayLeave after image → IsReached after image c h.ty × HoldsAccepted (block_of image) hs' c h.ty }
{}

/// Where the reply to a block's finish counted all that the block had accepted, and it is attached,
/// every image that a crash may leave later holds exactly the bytes that it had accepted last, whatever writes fail and
/// whenever it crashes, while no call edits the block or drops it or one of its owners.
pub fn finished_edits_survive()
    ensures { (w mid after : World) (hs hs' : Histories) (es : List Event) (rs : List Reply) (b durable freed : ℕ) (h : History) (owners : List ℕ) →
        IsMoment w hs →
        hs b ≡ Some h → IsNamedChain (types_now w) hs (b ∷ owners) → Step w (Finish b) (Finished durable freed) mid → length h.untold ≤ durable →
        AllByRecursion IsEvent es →
        RunWhere (LeavesAlone b (b ∷ owners)) mid (histories_after hs (Finish b) (Finished durable freed) mid.state.lives) es rs after hs' →
        EveryImageHas after b h.ty (newest_bytes h) }
{}

/// Once all that a block has accepted is told durable, and it is attached, every image that a crash may
/// leave later holds exactly its bytes, whatever writes fail and whenever it crashes, while no call edits the block or
/// drops it or one of its owners.
pub fn told_edits_survive()
    ensures { (w after : World) (hs hs' : Histories) (es : List Event) (rs : List Reply) (b u : ℕ) (owners bytes : List ℕ) → IsMoment w hs →
        AllByRecursion IsEvent es →
        IsNamedChain (types_now w) hs (b ∷ owners) → IsTold hs b u bytes → RunWhere (LeavesAlone b (b ∷ owners)) w hs es rs after hs' →
        EveryImageHas after b u bytes }
{}

/// No other file system disturbs it: so it is in every run in which the block's own file system edits
/// nothing, whatever the others do.
pub fn others_leave_alone()
    ensures { (w after : World) (hs : Histories) (es : List Event) (rs : List Reply) (fs b u : ℕ) (owners bytes : List ℕ) (h : History) → IsMoment w hs →
        AllByRecursion IsEvent es → AllByRecursion (IsNoEditBy fs) es → IsNamedChain (types_now w) hs (b ∷ owners) → IsTold hs b u bytes → hs b ≡ Some h →
        h.fs ≡ Some fs → Run w es rs after →
        EveryImageHas after b u bytes }
{}

/// Once a drain was answered, every block of a file system that the image reaches is reached in every
/// image that a crash may leave later, and holds the same bytes, whatever other file systems do, whatever writes fail and
/// whenever it crashes, while its own file system edits nothing. And these are the bytes that the
/// file system reads there.
pub fn drained_blocks_survive()
    ensures blocks { (disk w drained after : World) (lives : Lives) (es es' : List Event) (rs rs' : List Reply) (g writes fs c u : ℕ) →
        IsSound (types_there disk) (length disk.image) (block_of disk.image) → IsRecovered (types_there disk) disk.image lives →
        AllByRecursion IsEvent es → Run (mounted disk lives) es rs w → g < 32 → Step w (Client g Drain) (Drained writes) drained →
        IsReached drained drained.image c u → IsInFileSystem drained.state.lives (Some fs) c →
        AllByRecursion IsEvent es' → AllByRecursion (IsNoEditBy fs) es' → Run drained es' rs' after →
        EveryImageHas after c u (block_of drained.image c) }
    ensures read { (disk w drained read after : World) (lives : Lives) (es es' : List Event) (rs rs' : List Reply) (g writes fs c u : ℕ) (bytes : List ℕ) →
        IsSound (types_there disk) (length disk.image) (block_of disk.image) → IsRecovered (types_there disk) disk.image lives →
        AllByRecursion IsEvent es → Run (mounted disk lives) es rs w → g < 32 → Step w (Client g Drain) (Drained writes) drained →
        IsReached drained drained.image c u → Step drained (Client fs (Read c)) (Bytes bytes) read →
        AllByRecursion IsEvent es' → AllByRecursion (IsNoEditBy fs) es' → Run read es' rs' after →
        EveryImageHas after c u bytes }
{}

/// Rows of commands on a bare disk, with the entries that were told durable of a
/// block, and those that were not.
pub fn rows()
    ensures first { row_leaves first_row 1 ≡ Some (1 ∷ [], []) }
    ensures root { row_leaves first_row 0 ≡ Some (0 ∷ 2 ∷ [], []) }
    ensures before { row_leaves (take 15 lost_row) 1 ≡ Some (1 ∷ [], 3 ∷ []) }
    ensures lost { row_leaves lost_row 1 ≡ Some (1 ∷ [], []) }
    ensures landed { row_leaves landed_row 1 ≡ Some (1 ∷ 3 ∷ [], []) }
    ensures ended { row_leaves (take 19 dropped_row) 1 ≡ None }
    ensures named { row_leaves (take 3 installed_row) 0 ≡ Some (0 ∷ [], 2 ∷ 4 ∷ []) }
    ensures installed { row_leaves installed_row 0 ≡ Some (0 ∷ 2 ∷ 4 ∷ [], []) }
    ensures template { row_leaves installed_row 1 ≡ Some (1 ∷ [], []) }
    ensures anew { row_leaves dropped_row 1 ≡ Some ([], 5 ∷ []) }
{}
