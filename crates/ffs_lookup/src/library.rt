// Whether a store has the library's types.

ghost use Rattle.std.specs.Prelude.{◌≡◌, ℕ, ◌+◌, ◌<◌, Some, IsTrue, slice_get, false};
ghost use Rattle.ffs_model.specs.Library.{IsLibrary};
ghost use Rattle.templates.specs.Tables.{HasTemplate};
ghost use Rattle.templates.specs.Templates.{TemplateValue};
ghost use Rattle.ffs_format.specs.Library.{file_system_templates, HasAnother};

use ffs_format::is_library_template;
use ffs_format::law::templates_are_the_librarys;
use xn_state::Store;

/// Whether the type at a place, 0 to 2, from type 3 on, has the library's template.
fn has_template<S: Store>(store: &S, place: usize) -> bool
    requires { place < 3 }
    ensures has { IsTrue result → (template : TemplateValue) → slice_get file_system_templates place ≡ Some template →
        HasTemplate (S.types_of store.now) (3 + place) template }
    ensures lacks { result ≡ false → HasAnother (S.types_of store.now) place }
{
    match store.template(3 + place as u32) {
        Some(template) => is_library_template(template, place),
        None => false,
    }
}

/// Whether types 3 to 5 of a store are installed with the library's templates, word for word. It takes no memory.
pub fn is_library<S: Store>(store: &S) -> bool
    ensures has { IsTrue result → IsLibrary (S.types_of store.now) }
    ensures lacks { result ≡ false → (place : ℕ) × (place < 3) × HasAnother (S.types_of store.now) place }
{
    templates_are_the_librarys();
    if !has_template(store, 0) {
        return false;
    }
    if !has_template(store, 1) {
        return false;
    }
    has_template(store, 2)
}
