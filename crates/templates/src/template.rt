// A template, which is two checked programs.

ghost use Rattle.std.specs.Prelude.{◌≡◌, IfSome, SomeIff};
ghost use Rattle.udf_run.specs.SlotRows.{EmitsRows};
ghost use Rattle.templates.specs.Templates.{FitTogether, IsTemplate};

use std::marker::Model;
use udf_code::MAX_WORDS;
use udf_run::SlotRows;
use udf_verify::{Checked, Role};

/// How the blocks of a type are read: the owns program emits the blocks that such a block points to, each with its type,
/// and the size program answers from which byte on it is zero.
pub struct Template {
    owns: Checked,
    size: Checked,
    rows: Option<SlotRows>,
}

impl Model for Template {
    ghost use Rattle.std.specs.Prelude.{IfSome};
    ghost use Rattle.udf_run.specs.SlotRows.{EmitsRows};
    ghost use Rattle.templates.specs.Templates.{TemplateValue, IsTemplate};

    ghost Value = { TemplateValue };

    ghost view = { λ t. record { owns = t.owns; size = t.size } };

    ghost invariant = { λ t. IsTemplate (record { owns = t.owns; size = t.size }) × IfSome t.rows (EmitsRows t.owns) };
}

/// Written by hand, so that a function that drops one calls this: a derived drop is proved anew in each such function.
impl Drop for Template {
    fn drop(self) {
        let Template {
            owns: _,
            size: _,
            rows: _,
        } = self;
    }
}

impl Template {
    /// The template with these programs; `None` where one of them is for another role, or where they have more than 127
    /// words together. Both are then dropped.
    pub fn new(owns: Checked, size: Checked) -> Option<Template>
        ensures { SomeIff result (FitTogether owns size) (record { owns = owns; size = size }) }
    {
        let is_owns = owns.role() == Role::Owns;
        let is_size = size.role() == Role::Size;
        let count = owns.words().len() + size.words().len();
        if is_owns && is_size && count <= MAX_WORDS {
            let rows = SlotRows::of(&owns);
            Some(Template { owns, size, rows })
        } else {
            None
        }
    }

    /// The program that emits the blocks that a block points to.
    pub fn owns(&self) -> &Checked
        ensures value { result.now ≡ self.now.owns }
        ensures template { IsTemplate self.now }
    {
        &self.owns
    }

    /// The program that answers from which byte on a block is zero.
    pub fn size(&self) -> &Checked
        ensures value { result.now ≡ self.now.size }
        ensures template { IsTemplate self.now }
    {
        &self.size
    }

    /// The rows of slots that the owns program looks at, where it is known to do nothing more.
    pub(crate) fn rows(&self) -> Option<&SlotRows>
        ensures { IfSome result (λ rows. EmitsRows self.now.owns rows.now) }
    {
        self.rows.as_ref()
    }
}
