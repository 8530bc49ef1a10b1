// A template is installed while the store runs.

ghost use Rattle.std.specs.Prelude.{◌≡◌, ◌⊎◌, ◌+◌, ◌<◌, None, Ok, IfErr, IfOk, IsTrue, MatchResult, is_some};
ghost use Rattle.xn_model.specs.Results.{Gives, result_map};
ghost use Rattle.xn_model.specs.Root.{with_pointer};
ghost use Rattle.xn_model.specs.Calls.{install_of, patched, root_now};
ghost use Rattle.templates.specs.Reading.{template_of_bytes};
ghost use Rattle.templates.specs.Language.{language};
ghost use Rattle.xn_state.specs.Installs.{install_places, installed_of, template_refusal};

use crate::installed::Installed;
use crate::root::pointer_undo;
use crate::state::State;
use edit_list::{EditId, Undo};
use store_types::{BLOCK_LEN, Refusal};
use templates::{
    FIRST_INSTALLED_TYPE, Template, TemplateFault, empty_place, read_block, with_pointer,
};

/// Why no template is installed from a block with this fault.
fn template_refusal(fault: TemplateFault) -> Refusal
    ensures { result ≡ template_refusal fault }
{
    match fault {
        TemplateFault::NoMemory => Refusal::NoMemory,
        TemplateFault::BadMark => Refusal::BadTemplate,
        TemplateFault::BadCode => Refusal::BadTemplate,
        TemplateFault::NotVerified => Refusal::BadTemplate,
        TemplateFault::BytesAfter => Refusal::BadTemplate,
    }
}

impl State {
    /// The place of the catalogue and the block that an installation takes, or the first refusal that applies.
    fn install_places(&self) -> Result<(usize, u32), Refusal>
        ensures places { result ≡ install_places self.now }
        ensures few { IfOk result (λ places. places.0 < 16) }
    {
        let root = self.root_block();
        let Some(place) = empty_place(root.current()) else {
            return Err(Refusal::NoSlot);
        };
        if root.facts().pending >= 64 {
            return Err(Refusal::TooManyPending);
        }
        if self.next >= u64::MAX - 1 {
            return Err(Refusal::Exhausted);
        }
        match self.lives.index.lowest_free() {
            Some(block) => Ok((place, block)),
            None => Err(Refusal::NoSpace),
        }
    }

    /// The template in a block. Memory is wanting only where there is one.
    fn read_template(&self, template: &[u8; BLOCK_LEN]) -> Result<Template, Refusal>
        ensures { MatchResult result
            (λ read. template_of_bytes template.now ≡ Ok read)
            (λ refusal. ((refusal ≡ Refusal.BadTemplate) × (language template.now ≡ None)) ⊎
            ((refusal ≡ Refusal.NoMemory) × IsTrue (is_some (language template.now)))) }
    {
        match read_block(self.alloc, template) {
            Ok(read) => Ok(read),
            Err(fault) => Err(template_refusal(fault)),
        }
    }

    /// Block 0's bytes with a place of the catalogue that names a block, and what undoes that.
    fn named_root(&self, place: usize, block: u32) -> Result<([u8; BLOCK_LEN], Undo), Refusal>
        requires { place < 16 }
        ensures bytes { IfOk result (λ named. named.0 ≡ with_pointer (root_now self.now) place block) }
        ensures undoes { IfOk result (λ named. patched named.0 named.1 ≡ root_now self.now) }
        ensures err { IfErr result (λ refusal. refusal ≡ Refusal.NoMemory) }
    {
        let root = self.root_block().current();
        match pointer_undo(self.alloc, root, place) {
            Ok(undo) => Ok((with_pointer(root, place, block), undo)),
            Err(_) => Err(Refusal::NoMemory),
        }
    }

    /// Installs the template in a block: the lowest free block begins a life of nobody, of type 1, with these bytes, and the lowest empty
    /// place of block 0's catalogue names it, as two entries of nobody. The type that this makes can be used at once; an entry that
    /// adds a block of it waits until block 0 names the template on the disk. A template is never changed or removed. Refused are,
    /// in this order, a catalogue with 16 templates (`NoSlot`), 64 pending entries of block 0 (`TooManyPending`), fewer than two
    /// numbers left (`Exhausted`), no free block (`NoSpace`), bytes that are no template's block (`BadTemplate`), last
    /// `NoMemory`. A refusal changes nothing.
    pub fn install(&mut self, template: &[u8; BLOCK_LEN]) -> Result<Installed, Refusal>
        ensures state { Gives (install_of language self.old template.now) self.old self.new (result_map installed_of result) }
        ensures second { IfOk result (λ made. made.edits.1 ≡ made.edits.0 + 1) }
    {
        let (place, block) = self.install_places()?;
        let read = self.read_template(template)?;
        let (root, undo) = self.named_root(place, block)?;
        let number = EditId(self.next);
        let Ok(()) = self
            .lives
            .install(self.alloc, block, number, template, &root, undo)
        else {
            return Err(Refusal::NoMemory);
        };
        let ty = FIRST_INSTALLED_TYPE + place as u32;
        self.table.rules();
        self.table.put(ty, read);
        self.reads.set(block as usize, None);
        self.reads.set(0, None);
        self.next += 2;
        Ok(Installed {
            ty,
            block,
            edits: (number, EditId(number.0 + 1)),
        })
    }
}
