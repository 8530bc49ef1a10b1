//! The abstract model of a block store with soft updates, and its laws.
//! May touch: nothing.
#![tactic(auto)]

ghost use Rattle.std.specs.Prelude.{◌≡◌, ◌≢◌, ◌≤◌, ◌<◌, ◌⊎◌, ◌+◌, ◌*◌, ℕ, List, [], ◌∷◌, Option, length, take, slice_get, slice_set, Some, None, Ok, All};
ghost use Rattle.std.specs.Prelude.{Contains, IsSome, IsTrue, true, false};
ghost use Rattle.std.specs.List.{AllByRecursion};
ghost use Rattle.xn_model.specs.Lists.{has_number};
ghost use Rattle.xn_model.specs.Types.{Types};
ghost use Rattle.xn_model.specs.Languages.{Language, Extends, types_in, language_template};
ghost use Rattle.xn_model.specs.Root.{HasBuiltIns, has_type};
ghost use Rattle.xn_model.specs.Images.{IsSound, IsDiskSize, Reach, block_of, blocks_in, joined};
ghost use Rattle.xn_model.specs.Lives.{Lives, Life, StoreState, BlockState, life_at, prefix, begun_at, settled_at, freed, drops_of, floor, entries_of};
ghost use Rattle.xn_model.specs.Lives.{root_on_disk};
ghost use Rattle.xn_model.specs.Calls.{Edit, init_of, propose_of, make_root_of, drop_root_of, install_of, latest, types_of, forget_of, begun_of, settled_of};
ghost use Rattle.xn_model.specs.Calls.{pick_of, pending_of, bytes_at};
ghost use Rattle.xn_model.specs.Mounts.{recovered, IsRecovered};
ghost use Rattle.xn_model.specs.Worlds.{World, types_now, types_on, types_there, Event, Reply, Drained, Crash, act, replies, world_after, mounted, none_given};
ghost use Rattle.xn_model.specs.Worlds.{drain, all_pending, is_crash, IsEvent, Step, Run, MayLeave, given_at, left};
ghost use Rattle.xn_model.specs.Lanes.{FitLives, HoldImage};
ghost use Rattle.xn_model.specs.Flights.{flight_of, HaveSameFlights, HaveSameFlightsBut};
ghost use Rattle.xn_model.specs.Waves.{can_begin, ready_blocks, IsWave, wave, wave_bytes, wave_replies, is_success, IsStepOf, in_turns, steps_done, HaveTurns};
ghost use Rattle.xn_model.specs.Waves.{AreStepsDone, IsChain, IsRanking, waves, flush, Outcome, all_done, is_done, wave_with, replies_with, IsAfterWave};
ghost use Rattle.xn_model.specs.WaveRows.{pending_world, typed_world, flush_replies, failed_events, failed_replies, old_events, old_replies};
ghost use Rattle.xn_model.specs.BareDisks.{empty_language, bare_disk, mounted_disk};
ghost use Rattle.xn_model.specs.Rules.{IsConsistent, IsKeptType, KeepsType, Keeps, Installs, Holds, IsIdle, IsHeldOnDisk, ArePlaced, Agrees};
ghost use Rattle.xn_model.specs.Rows.{sent, answered, library, library_disk, first_row, dropped_row, landed_row, lost_row, open_lost_row, open_kept_row};
ghost use Rattle.xn_model.specs.Rows.{synced_row, failed_sync_row, failed_kept_row, failed_new_row, failed_old_row, many_row, refused_row, after_row};
ghost use Rattle.xn_model.specs.Rows.{drained_row, rolled_back_row, claimed_row, attached_row, chains, chain_disk, cycle_row, installed_row, used_row};
ghost use Rattle.xn_model.specs.Rows.{gone_row, full_row, subtree_kept_row, subtree_lost_row};

/// Where the rules hold, for all contents that have the durable or the begun state in each block
/// with a durable one: each block that is reached under the types of their own catalogue holds a
/// state of its life, from the durable one to the begun one, and has one owner.
pub fn agreement()
    ensures { (L : Language) (state : StoreState) (content : ℕ → List ℕ) → IsConsistent (types_of L state.lives) state → ArePlaced content state.lives →
        Agrees (types_in L content) (length state.lives) content state.lives }
{}

/// The same blocks are reached under the types of the lives, which may be more.
pub fn same_reach()
    ensures now { (L : Language) (state : StoreState) (content : ℕ → List ℕ) (c u : ℕ) → IsConsistent (types_of L state.lives) state →
        ArePlaced content state.lives →
        Reach (types_in L content) (length state.lives) content c u → Reach (types_of L state.lives) (length state.lives) content c u }
    ensures there { (L : Language) (state : StoreState) (content : ℕ → List ℕ) (c u : ℕ) → IsConsistent (types_of L state.lives) state →
        ArePlaced content state.lives →
        Reach (types_of L state.lives) (length state.lives) content c u → Reach (types_in L content) (length state.lives) content c u }
{}

/// And a crash that leaves such contents meets a sound image.
pub fn soundness()
    ensures { (L : Language) (state : StoreState) (content : ℕ → List ℕ) → IsConsistent (types_of L state.lives) state → ArePlaced content state.lives →
        IsSound (types_in L content) (length state.lives) content }
{}

/// A client's call that is done keeps the state consistent and its types as they are, and a disk that
/// fitted it fits on; so does the begin of a write.
pub fn init_keeps()
    ensures { (T : Types) (state new : StoreState) (fs ty : ℕ) (bytes : List ℕ) (made : ℕ × ℕ) → IsConsistent T state →
        init_of T state fs ty bytes ≡ Ok (made, new) → Keeps T state new }
{}

pub fn propose_keeps()
    ensures { (T : Types) (state new : StoreState) (fs block : ℕ) (edit : Edit) (entry : ℕ) → IsConsistent T state →
        propose_of T state fs block edit ≡ Ok (entry, new) → Keeps T state new }
{}

pub fn make_root_keeps()
    ensures { (T : Types) (state new : StoreState) (fs block entry : ℕ) → IsConsistent T state → fs < 32 → make_root_of state fs block ≡ Ok (entry, new) →
        Keeps T state new }
{}

pub fn drop_root_keeps()
    ensures { (T : Types) (state new : StoreState) (fs entry : ℕ) → IsConsistent T state → fs < 32 → drop_root_of T state fs ≡ Ok (entry, new) →
        Keeps T state new }
{}

pub fn forget_keeps()
    ensures { (T : Types) (state new : StoreState) (fs block : ℕ) (done : Unit {0}) → IsConsistent T state → forget_of T state fs block ≡ Ok (done, new) →
        Keeps T state new }
{}

/// An installed template keeps the state consistent under the types that it has then, which are the
/// old ones and one more.
pub fn install_keeps()
    ensures { (L : Language) (state new : StoreState) (bytes : List ℕ) (made : ℕ × ℕ × ℕ) → IsConsistent (types_of L state.lives) state → length bytes ≡ 512 →
        install_of L state bytes ≡ Ok (made, new) → Installs L state new }
{}

/// The new type means what its template says, and every other type what it meant, or nothing still.
pub fn installed_types()
    ensures own { (L : Language) (state new : StoreState) (bytes : List ℕ) (made : ℕ × ℕ × ℕ) → IsConsistent (types_of L state.lives) state →
        length bytes ≡ 512 →
        install_of L state bytes ≡ Ok (made, new) → language_template L (latest new.lives) made.0 ≡ L bytes }
    ensures others { (L : Language) (state new : StoreState) (bytes : List ℕ) (made : ℕ × ℕ × ℕ) (t : ℕ) → IsConsistent (types_of L state.lives) state →
        length bytes ≡ 512 →
        install_of L state bytes ≡ Ok (made, new) → t ≢ made.0 → language_template L (latest new.lives) t ≡ language_template L (latest state.lives) t }
{}

pub fn begun_keeps()
    ensures { (T : Types) (state new : StoreState) (block : ℕ) (begun : List ℕ × ℕ) → IsConsistent T state → begun_of state block ≡ Ok (begun, new) →
        Keeps T state new }
{}

/// So does a write whose block is read back, with what is read there.
pub fn settled_keeps()
    ensures state { (T : Types) (state new : StoreState) (block : ℕ) (bytes : List ℕ) (done : ℕ × ℕ) → IsConsistent T state →
        settled_of state block bytes ≡ Ok (done, new) → IsConsistent T new × (length new.lives ≡ length state.lives) }
    ensures types { (L : Language) (T : Types) (state new : StoreState) (block : ℕ) (bytes : List ℕ) (done : ℕ × ℕ) → IsConsistent T state →
        settled_of state block bytes ≡ Ok (done, new) → types_of L new.lives ≡ types_of L state.lives }
    ensures placed { (T : Types) (state new : StoreState) (block : ℕ) (bytes : List ℕ) (done : ℕ × ℕ) (content : ℕ → List ℕ) → IsConsistent T state →
        settled_of state block bytes ≡ Ok (done, new) → ArePlaced content state.lives → content block ≡ bytes → ArePlaced content new.lives }
{}

/// Where lanes fit lives, they do so after each client's call.
pub fn lanes_kept<L>()
    ensures init { (read : L → List ℕ) (lanes : List (Option L)) (T : Types) (state new : StoreState) (fs ty : ℕ) (bytes : List ℕ) (made : ℕ × ℕ) →
        init_of T state fs ty bytes ≡ Ok (made, new) → FitLives read lanes state.lives → FitLives read lanes new.lives }
    ensures propose { (read : L → List ℕ) (lanes : List (Option L)) (T : Types) (state new : StoreState) (fs block : ℕ) (edit : Edit) (entry : ℕ) →
        propose_of T state fs block edit ≡ Ok (entry, new) → FitLives read lanes state.lives → FitLives read lanes new.lives }
    ensures make_root { (read : L → List ℕ) (lanes : List (Option L)) (state new : StoreState) (fs block entry : ℕ) →
        make_root_of state fs block ≡ Ok (entry, new) → FitLives read lanes state.lives → FitLives read lanes new.lives }
    ensures drop_root { (read : L → List ℕ) (lanes : List (Option L)) (T : Types) (state new : StoreState) (fs entry : ℕ) →
        drop_root_of T state fs ≡ Ok (entry, new) → FitLives read lanes state.lives → FitLives read lanes new.lives }
    ensures install { (read : L → List ℕ) (lanes : List (Option L)) (language : Language) (state new : StoreState) (bytes : List ℕ) (made : ℕ × ℕ × ℕ) →
        install_of language state bytes ≡ Ok (made, new) → FitLives read lanes state.lives → FitLives read lanes new.lives }
    ensures forget { (read : L → List ℕ) (lanes : List (Option L)) (T : Types) (state new : StoreState) (fs block : ℕ) (done : Unit {0}) →
        forget_of T state fs block ≡ Ok (done, new) → FitLives read lanes state.lives → FitLives read lanes new.lives }
{}

/// And after the begin of a write, without its lane.
pub fn lanes_begun<L>()
    ensures { (read : L → List ℕ) (lanes : List (Option L)) (state new : StoreState) (block : ℕ) (begun : List ℕ × ℕ) →
        begun_of state block ≡ Ok (begun, new) → FitLives read lanes state.lives →
        FitLives read (slice_set lanes block None) new.lives }
{}

/// And once the lane is read back, with it.
pub fn lanes_settled<L>()
    ensures { (T : Types) (read : L → List ℕ) (lanes : List (Option L)) (state new : StoreState) (block : ℕ) (lane : L) (done : ℕ × ℕ) →
        IsConsistent T state → settled_of state block (read lane) ≡ Ok (done, new) → FitLives read lanes state.lives →
        FitLives read (slice_set lanes block (Some lane)) new.lives }
{}

/// So what the lanes hold agrees with the lives, where each lane that is away has its block's
/// durable bytes or the begun ones.
pub fn lanes_placed<L>()
    ensures { (read : L → List ℕ) (lanes : List (Option L)) (lives : Lives) (content : ℕ → List ℕ) → FitLives read lanes lives →
        ((c : ℕ) (lane : L) → slice_get lanes c ≡ Some (Some lane) → content c ≡ read lane) →
        ((c : ℕ) (l : Life) (s : BlockState) → slice_get lanes c ≡ Some None → life_at lives c ≡ Some l → l.durable ≡ Some s → IsHeldOnDisk content c l s) →
        ArePlaced content lives }
{}

/// Where each place of an image has a lane that reads its block, the lanes fit the lives of a mount.
pub fn lanes_mounted<L>()
    ensures { (read : L → List ℕ) (lanes : List (Option L)) (T : Types) (image : List (List ℕ)) (lives : Lives) → IsRecovered T image lives →
        HoldImage read lanes image → FitLives read lanes lives }
{}

/// A client's call that is done leaves the writes that are under way as they are: in each block as
/// many entries, and the same bytes to write.
pub fn flights_kept()
    ensures init { (T : Types) (state new : StoreState) (fs ty : ℕ) (bytes : List ℕ) (made : ℕ × ℕ) →
        init_of T state fs ty bytes ≡ Ok (made, new) → HaveSameFlights state.lives new.lives }
    ensures propose { (T : Types) (state new : StoreState) (fs block : ℕ) (edit : Edit) (entry : ℕ) → IsConsistent T state →
        propose_of T state fs block edit ≡ Ok (entry, new) → HaveSameFlights state.lives new.lives }
    ensures make_root { (T : Types) (state new : StoreState) (fs block entry : ℕ) → IsConsistent T state →
        make_root_of state fs block ≡ Ok (entry, new) → HaveSameFlights state.lives new.lives }
    ensures drop_root { (T : Types) (state new : StoreState) (fs entry : ℕ) → IsConsistent T state →
        drop_root_of T state fs ≡ Ok (entry, new) → HaveSameFlights state.lives new.lives }
    ensures install { (L : Language) (state new : StoreState) (bytes : List ℕ) (made : ℕ × ℕ × ℕ) → IsConsistent (types_of L state.lives) state →
        length bytes ≡ 512 →
        install_of L state bytes ≡ Ok (made, new) → HaveSameFlights state.lives new.lives }
    ensures forget { (T : Types) (state new : StoreState) (fs block : ℕ) (done : Unit {0}) →
        forget_of T state fs block ≡ Ok (done, new) → HaveSameFlights state.lives new.lives }
{}

/// After the begin of a write that block's write is under way, with the count and the bytes that the
/// call answers, and the others are as they were.
pub fn flights_begun()
    ensures { (state new : StoreState) (block : ℕ) (begun : List ℕ × ℕ) → begun_of state block ≡ Ok (begun, new) →
        (flight_of (life_at new.lives block) ≡ Some (begun.1, begun.0)) × HaveSameFlightsBut block state.lives new.lives }
{}

/// After its block is read back a write is no longer under way, and the others are as they were.
pub fn flights_settled()
    ensures { (T : Types) (state new : StoreState) (block : ℕ) (bytes : List ℕ) (done : ℕ × ℕ) → IsConsistent T state →
        settled_of state block bytes ≡ Ok (done, new) →
        (flight_of (life_at new.lives block) ≡ None) × HaveSameFlightsBut block state.lives new.lives }
{}

/// Each step keeps the rules, whichever free choice it takes.
pub fn step_keeps()
    ensures { (w : World) (e : Event) (r : Reply) (after : World) → IsEvent e → Holds w → Step w e r after → Holds after }
{}

/// Until the next crash all types stay as they are, and more may come. A mount has those of the image.
pub fn types_grow()
    ensures step { (w : World) (e : Event) (r : Reply) (after : World) → IsEvent e → is_crash e ≡ false → Holds w → Step w e r after →
        Extends (types_now w) (types_now after) }
    ensures mount { (w : World) (lives : Lives) → IsSound (types_there w) (length w.image) (block_of w.image) → IsRecovered (types_there w) w.image lives →
        types_now (mounted w lives) ≡ types_there w }
{}

/// A type that block 0 has on the disk stays, over crashes too. One that it has there after an event means what it meant before, if it was there.
pub fn types_stay()
    ensures stay { (w : World) (e : Event) (r : Reply) (after : World) → IsEvent e → Holds w → Step w e r after → (t : ℕ) → KeepsType w after t }
    ensures same { (w : World) (e : Event) (r : Reply) (after : World) → IsEvent e → Holds w → Step w e r after → (t : ℕ) →
        IsTrue (has_type (root_on_disk after.state.lives) t) → IsTrue ((types_now w).installed t) → IsKeptType w after t }
{}

/// The blocks of an image are read back from its bytes.
pub fn blocks_are_read()
    ensures blocks { (blocks : List (List ℕ)) → All (λ block. length block ≡ 512) blocks → blocks_in (joined blocks) ≡ blocks }
    ensures bytes { (blocks : List (List ℕ)) → All (λ block. length block ≡ 512) blocks → length (joined blocks) ≡ 512 * length blocks }
{}

/// By the rules each image that a crash may leave agrees with the lives and is sound. The newest bytes are one
/// of them, and so is what a crash leaves that keeps some open writes and no others. A block whose write isn't
/// under way has no open write, and its settled bytes are its newest.
pub fn left_images()
    ensures agrees { (w : World) (image : List (List ℕ)) → Holds w → MayLeave w image →
        Agrees (types_on w image) (length image) (block_of image) w.state.lives }
    ensures sound { (w : World) (image : List (List ℕ)) → Holds w → MayLeave w image → IsSound (types_on w image) (length image) (block_of image) }
    ensures newest { (w : World) → Holds w → MayLeave w w.image }
    ensures kept { (w : World) (kept : List ℕ) → Holds w → MayLeave w (left w kept) }
    ensures idle { (w : World) (b : ℕ) → Holds w → flight_of (life_at w.state.lives b) ≡ None →
        (given_at w.given b ≡ None) × (block_of w.settled b ≡ block_of w.image b) }
{}

/// After a crash the disk is what it left, with no write open and the lives that are read off it.
pub fn crash_mounts()
    ensures { (w : World) (kept : List ℕ) (r : Reply) (after : World) → Step w (Crash kept) r after → (after.image ≡ left w kept)
        × (after.settled ≡ after.image) × (after.given ≡ none_given after.image) × IsRecovered (types_there after) after.image after.state.lives }
{}

/// A mount of a sound image begins with the rules.
pub fn mount_holds()
    ensures { (w : World) (lives : Lives) → IsSound (types_there w) (length w.image) (block_of w.image) →
        IsRecovered (types_there w) w.image lives → Holds (mounted w lives) }
{}

/// After every run from a mount of a sound image the rules hold, and every image that a crash may leave,
/// as the newest one, agrees with the lives and is sound.
pub fn every_run()
    ensures holds { (w : World) (lives : Lives) (es : List Event) (rs : List Reply) (after : World) →
        IsSound (types_there w) (length w.image) (block_of w.image) → IsRecovered (types_there w) w.image lives → AllByRecursion IsEvent es →
        Run (mounted w lives) es rs after → Holds after }
    ensures agrees { (w : World) (lives : Lives) (es : List Event) (rs : List Reply) (after : World) →
        IsSound (types_there w) (length w.image) (block_of w.image) → IsRecovered (types_there w) w.image lives → AllByRecursion IsEvent es →
        Run (mounted w lives) es rs after → (image : List (List ℕ)) → MayLeave after image →
        Agrees (types_on after image) (length image) (block_of image) after.state.lives }
    ensures sound { (w : World) (lives : Lives) (es : List Event) (rs : List Reply) (after : World) →
        IsSound (types_there w) (length w.image) (block_of w.image) → IsRecovered (types_there w) w.image lives → AllByRecursion IsEvent es →
        Run (mounted w lives) es rs after → (image : List (List ℕ)) → MayLeave after image → IsSound (types_on after image) (length image) (block_of image) }
    ensures newest { (w : World) (lives : Lives) (es : List Event) (rs : List Reply) (after : World) →
        IsSound (types_there w) (length w.image) (block_of w.image) → IsRecovered (types_there w) w.image lives → AllByRecursion IsEvent es →
        Run (mounted w lives) es rs after → MayLeave after after.image }
{}

/// With nothing in flight and something pending, some block has a safe prefix.
pub fn progress()
    ensures { (T : Types) (state : StoreState) → IsConsistent T state → IsIdle state.lives → (b : ℕ) (l : Life) (s : BlockState) →
        life_at state.lives b ≡ Some l → Contains l.pending s → IsSome (pick_of state) }
{}

/// A drain with nothing in flight ends with nothing pending, after at most as many writes as
/// entries were pending.
pub fn drain_ends()
    ensures { (w : World) → Holds w → IsIdle w.state.lives → (writes : ℕ) × ((drain w).0 ≡ Drained writes) ×
        (writes ≤ all_pending w.state.lives) × (all_pending (drain w).1.state.lives ≡ 0) }
{}

/// With nothing in flight and something pending, some block is ready for a wave; and the first ready
/// blocks, so many as one likes, are a wave.
pub fn ready_found()
    ensures found { (T : Types) (state : StoreState) → IsConsistent T state → IsIdle state.lives → (b : ℕ) (l : Life) (s : BlockState) →
        life_at state.lives b ≡ Some l → Contains l.pending s → (c : ℕ) × Contains (ready_blocks state.lives) c }
    ensures wave { (lives : Lives) (n : ℕ) → IsWave lives (take n (ready_blocks lives)) }
{}

/// A write step of one block takes nothing from another block's safe prefix.
pub fn prefixes_grow()
    ensures { (w : World) (e : Event) (b c : ℕ) → Holds w → IsStepOf c e → b ≢ c → prefix w.state.lives b ≤ prefix (act w e).1.state.lives b }
{}

/// Where several blocks that are ready are begun, written, synced and finished, each in this order, and these steps are mixed
/// in any way, each step is answered well, and each begin and finish has at least as many entries as were safe of the
/// block before all of it. A block that had all four steps is not in flight.
pub fn writes_mix()
    ensures done { (w : World) (turns : List ℕ) → Holds w → w.down ≡ false → ((b : ℕ) → Contains turns b → can_begin w.state.lives b ≡ true) →
        HaveTurns (λ b. 0) turns → AreStepsDone w.state.lives (in_turns turns) (replies w (in_turns turns)) }
    ensures rest { (w : World) (turns : List ℕ) (b : ℕ) (l : Life) → Holds w → w.down ≡ false →
        ((b : ℕ) → Contains turns b → can_begin w.state.lives b ≡ true) → HaveTurns (λ b. 0) turns → Contains turns b →
        steps_done (λ b. 0) turns b ≡ 4 → life_at (world_after w (in_turns turns)).state.lives b ≡ Some l → l.begun ≡ None }
{}

/// On a calm device each event of a wave is answered well, in whatever order its blocks stand: as many
/// entries of a block are begun and made durable as are safe of it before the wave. Nothing but the
/// blocks of the wave and those that their entries drop is changed. The wave is a run.
pub fn wave_is_answered()
    ensures replies { (w : World) (blocks : List ℕ) → Holds w → w.down ≡ false → IsWave w.state.lives blocks →
        replies w (wave blocks) ≡ wave_replies w.state.lives blocks }
    ensures leaves { (w : World) (blocks : List ℕ) → Holds w → w.down ≡ false → IsWave w.state.lives blocks →
        IsAfterWave w all_done blocks (world_after w (wave blocks)) }
    ensures runs { (w : World) (blocks : List ℕ) → Holds w → w.down ≡ false → IsWave w.state.lives blocks →
        Run w (wave blocks) (wave_replies w.state.lives blocks) (world_after w (wave blocks)) }
{}

/// After a wave on a calm device the writes under way are those that were before it, and less is pending.
pub fn wave_ends()
    ensures flights { (w : World) (blocks : List ℕ) → Holds w → w.down ≡ false → IsWave w.state.lives blocks →
        HaveSameFlights w.state.lives (world_after w (wave blocks)).state.lives }
    ensures idle { (w : World) (blocks : List ℕ) → Holds w → w.down ≡ false → IsWave w.state.lives blocks → IsIdle w.state.lives →
        IsIdle (world_after w (wave blocks)).state.lives }
    ensures less { (w : World) (blocks : List ℕ) (b : ℕ) → Holds w → w.down ≡ false → IsWave w.state.lives blocks → Contains blocks b →
        all_pending (world_after w (wave blocks)).state.lives < all_pending w.state.lives }
{}

/// A flush with nothing in flight ends with nothing in flight and nothing pending, after at most as many
/// waves as entries were pending, and each of its events is answered well. It is a run.
pub fn flush_ends()
    ensures few { (w : World) (limit : ℕ) → Holds w → w.down ≡ false → IsIdle w.state.lives → 1 ≤ limit → length (waves limit w) ≤ all_pending w.state.lives }
    ensures nothing { (w : World) (limit : ℕ) → Holds w → w.down ≡ false → IsIdle w.state.lives → 1 ≤ limit →
        all_pending (world_after w (flush limit w)).state.lives ≡ 0 }
    ensures idle { (w : World) (limit : ℕ) → Holds w → w.down ≡ false → IsIdle w.state.lives → 1 ≤ limit → IsIdle (world_after w (flush limit w)).state.lives }
    ensures answered { (w : World) (limit : ℕ) → Holds w → w.down ≡ false → IsIdle w.state.lives → 1 ≤ limit →
        All (λ r. is_success r ≡ true) (replies w (flush limit w)) }
    ensures runs { (w : World) (limit : ℕ) → Holds w → Run w (flush limit w) (replies w (flush limit w)) (world_after w (flush limit w)) }
{}

/// A flush whose waves take all ready blocks has as many waves as there are entries in some chain in which each
/// waits for the one before it. So it has no more than there are ranks, however the pending entries are ranked so that
/// each is above those that it waits for; the entry numbers are such ranks.
pub fn waves_are_few()
    ensures chain { (w : World) (limit : ℕ) → Holds w → w.down ≡ false → IsIdle w.state.lives → length w.state.lives ≤ limit → waves limit w ≢ [] →
        (b : ℕ) × (s : BlockState) × IsChain w.state.lives (length (waves limit w)) b s }
    ensures few { (w : World) (limit : ℕ) (rank : ℕ → ℕ) (top : ℕ) → Holds w → w.down ≡ false → IsIdle w.state.lives → length w.state.lives ≤ limit →
        IsRanking w.state.lives rank →
        ((b : ℕ) (l : Life) (s : BlockState) → life_at w.state.lives b ≡ Some l → Contains l.pending s → rank s.entry < top) → length (waves limit w) ≤ top }
    ensures ranks { (T : Types) (state : StoreState) → IsConsistent T state → IsRanking state.lives (λ n. n) }
{}

/// By what its calls answer: the write of a block that is ready begins, with what is safe of the block. It is not ready then;
/// every other block is as it was, with its prefix, and is ready if it was; and as much is pending.
pub fn wave_begins()
    ensures begins { (state : StoreState) (b : ℕ) → can_begin state.lives b ≡ true →
        begun_of state b ≡ Ok ((wave_bytes state.lives b, prefix state.lives b), record state { lives = begun_at state.lives b (prefix state.lives b) }) }
    ensures here { (state new : StoreState) (b : ℕ) (begun : List ℕ × ℕ) → begun_of state b ≡ Ok (begun, new) → can_begin new.lives b ≡ false }
    ensures others { (state new : StoreState) (b c : ℕ) (begun : List ℕ × ℕ) → begun_of state b ≡ Ok (begun, new) → c ≢ b →
        (life_at new.lives c ≡ life_at state.lives c) × (prefix new.lives c ≡ prefix state.lives c) × (can_begin new.lives c ≡ can_begin state.lives c) }
    ensures pending { (state new : StoreState) (b : ℕ) (begun : List ℕ × ℕ) → begun_of state b ≡ Ok (begun, new) →
        all_pending new.lives ≡ all_pending state.lives }
{}

/// So blocks that are picked and begun, one after another, are the first of those that were ready, in rising order.
pub fn picks_are_ready()
    ensures first { (state : StoreState) (b : ℕ) → pick_of state ≡ Some b → (rest : List ℕ) × (ready_blocks state.lives ≡ b ∷ rest) ×
        ((new : StoreState) (begun : List ℕ × ℕ) → begun_of state b ≡ Ok (begun, new) → ready_blocks new.lives ≡ rest) }
    ensures none { (state : StoreState) → pick_of state ≡ None → ready_blocks state.lives ≡ [] }
{}

/// A write settles whose begun bytes are read back. Every other block whose write is under way is as it was, and what
/// is durable now is no longer pending.
pub fn wave_settles()
    ensures settles { (state : StoreState) (b k : ℕ) (l : Life) → life_at state.lives b ≡ Some l → l.begun ≡ Some k → settled_of state b (bytes_at k l)
        ≡ Ok ((k, length (drops_of (take k l.pending))), record state { lives = freed (settled_at state.lives b k) (drops_of (take k l.pending)) }) }
    ensures others { (T : Types) (state new : StoreState) (b : ℕ) (bytes : List ℕ) (done : ℕ × ℕ) (c : ℕ) (l : Life) (k : ℕ) → IsConsistent T state →
        settled_of state b bytes ≡ Ok (done, new) → c ≢ b → life_at state.lives c ≡ Some l → l.begun ≡ Some k → life_at new.lives c ≡ Some l }
    ensures pending { (T : Types) (state new : StoreState) (b : ℕ) (bytes : List ℕ) (done : ℕ × ℕ) → IsConsistent T state →
        settled_of state b bytes ≡ Ok (done, new) → all_pending new.lives + done.0 ≤ all_pending state.lives }
{}

/// Where writes or syncs of some blocks of a wave fail, the others finish as they do on a calm device. What was not read
/// back stays under way, with the entries and the bytes that its ticket carries; every other block of the wave isn't under way,
/// and the writes of blocks outside the wave are as they were. A block whose write failed may be synced and read back all the same:
/// its entries are durable where the new bytes stand there, and pending where the old ones do. The wave is a run.
pub fn wave_with_faults()
    ensures replies { (w : World) (outcome : ℕ → Outcome) (blocks : List ℕ) → Holds w → w.down ≡ false → IsWave w.state.lives blocks →
        replies w (wave_with outcome blocks) ≡ replies_with w outcome blocks }
    ensures leaves { (w : World) (outcome : ℕ → Outcome) (blocks : List ℕ) → Holds w → w.down ≡ false → IsWave w.state.lives blocks →
        IsAfterWave w outcome blocks (world_after w (wave_with outcome blocks)) }
    ensures flying { (w : World) (outcome : ℕ → Outcome) (blocks : List ℕ) (b : ℕ) → Holds w → w.down ≡ false → IsWave w.state.lives blocks →
        Contains blocks b → is_done (outcome b) ≡ false →
        flight_of (life_at (world_after w (wave_with outcome blocks)).state.lives b) ≡ Some (prefix w.state.lives b, wave_bytes w.state.lives b) }
    ensures done { (w : World) (outcome : ℕ → Outcome) (blocks : List ℕ) (b : ℕ) → Holds w → w.down ≡ false → IsWave w.state.lives blocks → Contains blocks b →
        is_done (outcome b) ≡ true → flight_of (life_at (world_after w (wave_with outcome blocks)).state.lives b) ≡ None }
    ensures others { (w : World) (outcome : ℕ → Outcome) (blocks : List ℕ) (c : ℕ) → Holds w → w.down ≡ false → IsWave w.state.lives blocks →
        has_number blocks c ≡ false →
        flight_of (life_at (world_after w (wave_with outcome blocks)).state.lives c) ≡ flight_of (life_at w.state.lives c) }
    ensures runs { (w : World) (outcome : ℕ → Outcome) (blocks : List ℕ) → Holds w → w.down ≡ false → IsWave w.state.lives blocks →
        Run w (wave_with outcome blocks) (replies_with w outcome blocks) (world_after w (wave_with outcome blocks)) }
{}

/// No pending entry of a file system is below its floor, the floor is such an entry or the next
/// number, and the entries that it is read from are as many as are pending.
pub fn floor_is_least()
    ensures low { (fs next : ℕ) (lives : Lives) (b : ℕ) (l : Life) (s : BlockState) → life_at lives b ≡ Some l →
        Contains l.pending s → s.fs ≡ Some fs → floor fs next lives ≤ s.entry }
    ensures met { (fs next : ℕ) (lives : Lives) →
        (floor fs next lives ≡ next) ⊎ Contains (entries_of fs lives) (floor fs next lives) }
    ensures counted { (fs : ℕ) (state : StoreState) → length (entries_of fs state.lives) ≡ pending_of state fs }
{}

/// The walk from block 0 of a sound image finds the reached blocks and no others.
pub fn mount_finds()
    ensures { (types : Types) (image : List (List ℕ)) → HasBuiltIns types → IsSound types (length image) (block_of image) →
        IsRecovered types image (recovered types image) }
{}

/// What happens with ample memory is a run, for every list of events.
pub fn acts_run()
    ensures { (w : World) (es : List Event) → Holds w → AllByRecursion IsEvent es → Run w es (replies w es) (world_after w es) }
{}

/// Rows of commands on small disks, with their replies.
pub fn rows()
    ensures first { replies (mounted_disk empty_language (bare_disk 32)) (sent first_row) ≡ answered first_row }
    ensures dropped { replies (mounted_disk empty_language (bare_disk 32)) (sent dropped_row) ≡ answered dropped_row }
    ensures landed { replies (mounted_disk empty_language (bare_disk 32)) (sent landed_row) ≡ answered landed_row }
    ensures lost { replies (mounted_disk empty_language (bare_disk 32)) (sent lost_row) ≡ answered lost_row }
    ensures open_lost { replies (mounted_disk empty_language (bare_disk 32)) (sent open_lost_row) ≡ answered open_lost_row }
    ensures open_kept { replies (mounted_disk empty_language (bare_disk 32)) (sent open_kept_row) ≡ answered open_kept_row }
    ensures synced { replies (mounted_disk empty_language (bare_disk 32)) (sent synced_row) ≡ answered synced_row }
    ensures failed_sync { replies (mounted_disk empty_language (bare_disk 32)) (sent failed_sync_row) ≡ answered failed_sync_row }
    ensures failed_kept { replies (mounted_disk empty_language (bare_disk 32)) (sent failed_kept_row) ≡ answered failed_kept_row }
    ensures failed_new { replies (mounted_disk empty_language (bare_disk 32)) (sent failed_new_row) ≡ answered failed_new_row }
    ensures failed_old { replies (mounted_disk empty_language (bare_disk 32)) (sent failed_old_row) ≡ answered failed_old_row }
    ensures many { replies (mounted_disk empty_language (bare_disk 32)) (sent many_row) ≡ answered many_row }
    ensures refused { replies (mounted_disk empty_language (bare_disk 32)) (sent refused_row) ≡ answered refused_row }
    ensures after { replies (mounted_disk empty_language (bare_disk 32)) (sent after_row) ≡ answered after_row }
    ensures drained { replies (mounted_disk empty_language (bare_disk 32)) (sent drained_row) ≡ answered drained_row }
    ensures rolled_back { replies (mounted_disk library (library_disk 32)) (sent rolled_back_row) ≡ answered rolled_back_row }
    ensures claimed { replies (mounted_disk library (library_disk 32)) (sent claimed_row) ≡ answered claimed_row }
    ensures attached { replies (mounted_disk library (library_disk 32)) (sent attached_row) ≡ answered attached_row }
    ensures cycle { replies (mounted_disk chains (chain_disk 3 32)) (sent cycle_row) ≡ answered cycle_row }
    ensures installed { replies (mounted_disk chains (bare_disk 32)) (sent installed_row) ≡ answered installed_row }
    ensures used { replies (mounted_disk chains (chain_disk 4 32)) (sent used_row) ≡ answered used_row }
    ensures gone { replies (mounted_disk chains (bare_disk 32)) (sent gone_row) ≡ answered gone_row }
    ensures full { replies (mounted_disk chains (bare_disk 32)) (sent full_row) ≡ answered full_row }
    ensures subtree_kept { replies (mounted_disk chains (bare_disk 32)) (sent subtree_kept_row) ≡ answered subtree_kept_row }
    ensures subtree_lost { replies (mounted_disk chains (bare_disk 32)) (sent subtree_lost_row) ≡ answered subtree_lost_row }
{}

/// Waves on a disk with three new blocks, of which block 0 names two: with room for all, for two and for one
/// block in a wave; the replies; a wave in which one block's sync fails, and one in which
/// its write fails and leaves the old bytes. And waves where a block waits for a type that is installed.
pub fn wave_rows()
    ensures all { waves 32 pending_world ≡ (1 ∷ 2 ∷ 3 ∷ []) ∷ (0 ∷ []) ∷ [] }
    ensures two { waves 2 pending_world ≡ (1 ∷ 2 ∷ []) ∷ (0 ∷ 3 ∷ []) ∷ [] }
    ensures one { waves 1 pending_world ≡ (1 ∷ []) ∷ (0 ∷ []) ∷ (2 ∷ []) ∷ (0 ∷ []) ∷ (3 ∷ []) ∷ [] }
    ensures typed { waves 32 typed_world ≡ (3 ∷ 4 ∷ []) ∷ (0 ∷ []) ∷ (2 ∷ []) ∷ [] }
    ensures answered { replies pending_world (flush 32 pending_world) ≡ flush_replies }
    ensures failed { replies pending_world failed_events ≡ failed_replies }
    ensures kept_old { replies pending_world old_events ≡ old_replies }
{}
