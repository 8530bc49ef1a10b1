// What a survey keeps.

ghost use Rattle.std.specs.Prelude.{◌≡◌, ◌≢◌, ◌≤◌, ◌+◌, ℕ, List};
ghost use Rattle.treefs_mending.specs.Surveys.{IsDirectoryAt, first_survey, inode_count, survey_of, walked};
ghost use Rattle.treefs_mending.specs.Tallies.{Tally, named, tally_at, with_name};

/// A name that is counted changes the count of its inode alone.
pub fn names_are_counted()
    ensures here { (tallies : List Tally) (n d : ℕ) → tally_at (with_name tallies n d) n ≡ named (tally_at tallies n) d }
    ensures others { (tallies : List Tally) (n d m : ℕ) → m ≢ n → tally_at (with_name tallies n d) m ≡ tally_at tallies m }
{}

/// A walk finds each directory once, so it is over before as many are visited as there are numbers: could more be visited, it would be the same.
pub fn walks_are_whole()
    ensures { (content : ℕ → List ℕ) (top more : ℕ) →
        walked content top (inode_count + more) 0 (first_survey content top) ≡ walked content top inode_count 0 (first_survey content top) }
{}

/// One name at most is counted of a directory, and none of inode 1 where that is one.
pub fn directories_have_one_name()
    ensures few { (content : ℕ → List ℕ) (top n : ℕ) → IsDirectoryAt content top n → (tally_at (survey_of content top).tallies n).names ≤ 1 }
    ensures none { (content : ℕ → List ℕ) (top : ℕ) → IsDirectoryAt content top 1 → (tally_at (survey_of content top).tallies 1).names ≡ 0 }
{}
