// What holds of templates, tables and fresh disks.

ghost use Rattle.std.specs.Prelude.{◌≡◌, ◌≢◌, ◌≤◌, ◌<◌, ℕ, List, [], length, All, Ok, Err};
ghost use Rattle.xn_model.specs.Root.{HasBuiltIns};
ghost use Rattle.xn_model.specs.Images.{IsSound, IsDiskSize, block_of};
ghost use Rattle.xn_model.specs.BareDisks.{built_ins, bare_disk, mounted_disk};
ghost use Rattle.xn_model.specs.Languages.{types_in};
ghost use Rattle.xn_model.specs.Rules.{Holds};
ghost use Rattle.xn_model.specs.Mounts.{found};
ghost use Rattle.templates.specs.declared.fault.TemplateFault.TheVariants.{NoMemory};
ghost use Rattle.templates.specs.Templates.{TemplateValue, IsTemplate, template_bytes};
ghost use Rattle.templates.specs.Reading.{template_of_bytes};
ghost use Rattle.templates.specs.Tables.{TableValue, IsTable, no_templates, table_types, table_of_image};
ghost use Rattle.templates.specs.Language.{language};
ghost use Rattle.templates.specs.Formats.{formatted, fresh_found, table_of};

/// A template is read from its block.
pub fn templates_are_read()
    ensures { (t : TemplateValue) → IsTemplate t → template_of_bytes (template_bytes t) ≡ Ok t }
{}

/// A block from which a template is read is that template's one block.
pub fn blocks_are_templates()
    ensures { (m : List ℕ) (t : TemplateValue) → length m ≡ 512 → All (λ byte. byte < 256) m → template_of_bytes m ≡ Ok t → (m ≡ template_bytes t) ×
        IsTemplate t }
{}

/// Want of memory is no fault that a block has.
pub fn blocks_want_no_memory()
    ensures { (m : List ℕ) → template_of_bytes m ≢ Err NoMemory }
{}

/// Every table gives the built-in types their meaning.
pub fn tables_have_built_ins()
    ensures { (table : TableValue) → IsTable table → HasBuiltIns (table_types table) }
{}

/// The table of an image gives the types that the model takes from the image's catalogue.
pub fn tables_are_catalogues()
    ensures { (content : ℕ → List ℕ) → table_types (table_of_image content) ≡ types_in language content }
{}

/// A table without templates has the built-in types alone.
pub fn empty_tables_have_built_ins()
    ensures { (t : ℕ) (m : List ℕ) → ((table_types no_templates).installed t ≡ built_ins.installed t)
        × ((table_types no_templates).owned t m ≡ built_ins.owned t m) × ((table_types no_templates).size t m ≡ built_ins.size t m) }
{}

/// A fresh disk without templates is a bare one.
pub fn formatted_without_templates()
    ensures { (count : ℕ) → formatted count [] ≡ bare_disk count }
{}

/// A fresh disk has so many blocks, each of 512 bytes.
pub fn formatted_has_its_blocks()
    ensures { (count : ℕ) (templates : List TemplateValue) → IsDiskSize count → length templates ≤ 16 → All IsTemplate templates →
        (length (formatted count templates) ≡ count) × All (λ block. length block ≡ 512) (formatted count templates) }
{}

/// The catalogue of a fresh disk names the templates that it was made with.
pub fn formatted_has_its_templates()
    ensures { (count : ℕ) (templates : List TemplateValue) → IsDiskSize count → length templates ≤ 16 → All IsTemplate templates →
        table_of_image (block_of (formatted count templates)) ≡ table_of templates }
{}

/// A fresh disk is sound under the types that its catalogue names.
pub fn formatted_is_sound()
    ensures { (count : ℕ) (templates : List TemplateValue) → IsDiskSize count → length templates ≤ 16 → All IsTemplate templates →
        IsSound (table_types (table_of templates)) count (block_of (formatted count templates)) }
{}

/// A mount of it finds block 0 and the templates' blocks.
pub fn formatted_is_found()
    ensures { (count : ℕ) (templates : List TemplateValue) → IsDiskSize count → length templates ≤ 16 → All IsTemplate templates →
        found (table_types (table_of templates)) (formatted count templates) ≡ fresh_found (length templates) }
{}

/// So its first mount begins with the rules.
pub fn formatted_holds()
    ensures { (count : ℕ) (templates : List TemplateValue) → IsDiskSize count → length templates ≤ 16 → All IsTemplate templates →
        Holds (mounted_disk language (formatted count templates)) }
{}
