// The templates of the two types of blocks, nodes and inodes.

ghost use Rattle.std.specs.Prelude.{◌≡◌, ◌↔◌, ◌≤◌, ◌-◌, ◌++◌, [], ◌∷◌, length, Ok, IsOk, IfOk, IsTrue};
ghost use Rattle.xn_model.specs.BareDisks.{zeros};
ghost use Rattle.templates.specs.Reading.{template_of_bytes};
ghost use Rattle.treefs_format.specs.Templates.{inode_template, node_template};

use std::alloc::{AllocError, Global};
use store_types::{BLOCK_LEN, DATA_TYPE};
use templates::law::{blocks_are_templates, templates_are_read};
use templates::{Template, TemplateFault, read_block, write_block};

/// The type of leaves, which is that of data.
pub const LEAF_TYPE: u8 = DATA_TYPE as u8;

/// The start of the block that spells the template of a node. The other bytes of the block are zero.
const NODE: [u8; 48] = [
    0x58, 0x54, 0x0a, 0x01, // 10 words, 1 word
    0x0a, 0x01, 0x00, 0x00, // LD1 1 0
    0x01, 0x02, 0x04, 0x00, // SET 2 4
    0x12, 0x03, 0x7f, 0x00, // FOR 3 127
    0x05, 0x04, 0x03, 0x02, // MUL 4 3 2
    0x03, 0x04, 0x04, 0x02, // ADD 4 4 2
    0x0c, 0x05, 0x04, 0x00, // LD4 5 4
    0x0e, 0x00, 0x05, 0x00, // IFLT 0 5
    0x0d, 0x05, 0x01, 0x00, // EMIT 5 1
    0x11, 0x00, 0x00, 0x00, // END
    0x11, 0x00, 0x00, 0x00, // END
    0x01, 0x00, 0x00, 0x02, // SET 0 512
];

/// The same of an inode.
const INODE: [u8; 96] = [
    0x58, 0x54, 0x16, 0x01, // 22 words, 1 word
    0x0a, 0x01, 0x00, 0x00, // LD1 1 0
    0x01, 0x02, 0x01, 0x00, // SET 2 1
    0x0a, 0x02, 0x02, 0x00, // LD1 2 2
    0x01, 0x03, 0x04, 0x00, // SET 3 4
    0x01, 0x04, 0x30, 0x00, // SET 4 48
    0x12, 0x05, 0x10, 0x00, // FOR 5 16
    0x05, 0x06, 0x05, 0x03, // MUL 6 5 3
    0x03, 0x06, 0x06, 0x04, // ADD 6 6 4
    0x0c, 0x07, 0x06, 0x00, // LD4 7 6
    0x0e, 0x00, 0x07, 0x00, // IFLT 0 7
    0x0d, 0x07, 0x01, 0x00, // EMIT 7 1
    0x11, 0x00, 0x00, 0x00, // END
    0x11, 0x00, 0x00, 0x00, // END
    0x01, 0x04, 0x70, 0x00, // SET 4 112
    0x12, 0x05, 0x04, 0x00, // FOR 5 4
    0x05, 0x06, 0x05, 0x03, // MUL 6 5 3
    0x03, 0x06, 0x06, 0x04, // ADD 6 6 4
    0x0c, 0x07, 0x06, 0x00, // LD4 7 6
    0x0e, 0x00, 0x07, 0x00, // IFLT 0 7
    0x0d, 0x07, 0x02, 0x00, // EMIT 7 2
    0x11, 0x00, 0x00, 0x00, // END
    0x11, 0x00, 0x00, 0x00, // END
    0x01, 0x00, 0x00, 0x02, // SET 0 512
];

/// The block that starts with these bytes; the other bytes are zero.
fn block_of(start: &[u8]) -> [u8; BLOCK_LEN]
    requires { length start.now ≤ 512 }
    ensures { result ≡ start.now ++ zeros (512 - length start.now) }
{
    let mut block = [0u8; BLOCK_LEN];
    block[..start.len()].copy_from_slice(start);
    block
}

/// The template of a block that starts with these bytes, where it spells one.
fn known_template(alloc: Global, start: &[u8]) -> Result<Template, AllocError>
    requires short { length start.now ≤ 512 }
    requires right { IsOk (template_of_bytes (start.now ++ zeros (512 - length start.now))) }
    ensures { IfOk result (λ template. template_of_bytes (start.now ++ zeros (512 - length start.now)) ≡ Ok template) }
{
    match read_block(alloc, &block_of(start)) {
        Ok(template) => Ok(template),
        Err(TemplateFault::NoMemory) => Err(AllocError),
        Err(_) => unreachable!(),
    }
}

/// Whether a template is the one of a block that starts with these bytes.
fn is_spelled(template: &Template, start: &[u8]) -> bool
    requires { length start.now ≤ 512 }
    ensures { IsTrue result ↔ (template_of_bytes (start.now ++ zeros (512 - length start.now)) ≡ Ok template.now) }
{
    templates_are_read();
    blocks_are_templates();
    write_block(template) == block_of(start)
}

/// Whether these are the templates of nodes and of inodes. It takes no memory.
pub fn are_tree_templates(node: &Template, inode: &Template) -> bool
    ensures { IsTrue result ↔ (node.now ≡ node_template) × (inode.now ≡ inode_template) }
{
    is_spelled(node, &NODE) && is_spelled(inode, &INODE)
}

/// The templates of nodes and of inodes, in this order. `Err` comes only for want of memory.
pub fn tree_templates(alloc: Global) -> Result<[Template; 2], AllocError>
    ensures { IfOk result (λ templates. templates ≡ node_template ∷ inode_template ∷ []) }
{
    let node = known_template(alloc, &NODE)?;
    let inode = known_template(alloc, &INODE)?;
    Ok([node, inode])
}
