// What a mount finds on fresh disks, and what answers mean.

ghost use Rattle.std.specs.Prelude.{◌≡◌, ◌≤◌, ℕ, List, Option, length, map, All, false};
ghost use Rattle.xn_model.specs.Lives.{StoreState};
ghost use Rattle.xn_model.specs.Worlds.{World, Client, Step, types_now};
ghost use Rattle.xn_model.specs.Images.{IsDiskSize, joined};
ghost use Rattle.templates.specs.Templates.{TemplateValue, IsTemplate};
ghost use Rattle.templates.specs.Tables.{table_types};
ghost use Rattle.templates.specs.Formats.{formatted, fresh_found, table_of};
ghost use Rattle.xn_state.specs.declared.found.Found.{Found};
ghost use Rattle.xn_state.specs.Mounts.{found_of, image_types, AreFound};
ghost use Rattle.xn_state.specs.declared.call.Call.{Call};
ghost use Rattle.xn_state.specs.declared.answer.Answer.{Answer};
ghost use Rattle.xn_state.specs.Answers.{call_of, reply_of_answer, StateAnswers};

/// On a fresh disk block 0 and the templates' blocks are reached, and its types are those of the templates.
pub fn fresh_disks_are_found()
    ensures { (count : ℕ) (templates : List TemplateValue) (found : List Found) → IsDiskSize count → length templates ≤ 16 → All IsTemplate templates →
        map found_of found ≡ fresh_found (length templates) →
        AreFound (joined (formatted count templates)) found × (image_types (joined (formatted count templates)) ≡ table_types (table_of templates)) }
{}

/// What a call may answer is a step of the model, on each disk whose store is in the state before the call.
pub fn answers_are_steps()
    ensures { (w : World) (new : StoreState) (fs : ℕ) (call : Call) (answer : Answer) → w.down ≡ false → StateAnswers (types_now w) w.state fs call new answer →
        Step w (Client fs (call_of call)) (reply_of_answer answer) (record w { state = new }) }
{}
