// What is told of a world from its first mount on.

ghost use Rattle.std.specs.Prelude.{◌≤◌, ◌<◌, ℕ, List, All, length};
ghost use Rattle.xn_model.specs.Images.{IsDiskSize, blocks_in};
ghost use Rattle.xn_model.specs.BareDisks.{mounted_disk};
ghost use Rattle.xn_history.specs.Histories.{Histories};
ghost use Rattle.xn_history.specs.Moments.{IsMoment};
ghost use Rattle.templates.specs.Templates.{TemplateValue, IsTemplate};
ghost use Rattle.templates.specs.Formats.{formatted};
ghost use Rattle.image_model.specs.Report.{IsSoundImage};
ghost use Rattle.templates.specs.Language.{language, types_of_image};

/// A fresh disk is at the moment of its first mount, so all its runs have histories.
pub fn fresh_disks_have_histories()
    ensures { (blocks : ℕ) (templates : List TemplateValue) → IsDiskSize blocks → length templates ≤ 16 → All IsTemplate templates →
        (hs : Histories) × IsMoment (mounted_disk language (formatted blocks templates)) hs }
{}

/// So is the disk of every sound image, under the types of its own catalogue.
pub fn opened_disks_have_histories()
    ensures { (image : List ℕ) → All (λ byte. byte < 256) image → IsSoundImage (types_of_image (blocks_in image)) image →
        (hs : Histories) × IsMoment (mounted_disk language (blocks_in image)) hs }
{}
