// What is wrong with inodes.

ghost use Rattle.std.specs.Prelude.{◌≡◌, ◌++◌, IfOk, List};
ghost use Rattle.treefs_lookup.specs.Readable.{readable};
ghost use Rattle.treefs_check.specs.Findings.{Finding, if_finding};
ghost use Rattle.treefs_check.specs.Inodes.{
  AreInodeFindings,
  AreOfInode,
  IsSizeFinding,
  least_links,
  links_finding,
  long_finding,
  names_of,
  parent_finding,
  surplus_count,
};

use crate::finding::Finding;
use std::alloc::AllocError;
use treefs_edits::Tree;
use treefs_format::sizes::GREATEST_SIZE;
use treefs_lookup::is_trimmed;
use treefs_mending::{Name, Numbered, Survey, next_inode, plan_inode, tally_at};
use xn_state::Store;

/// How many names that are one too many lead to the inode of a number.
fn surplus_count(surplus: &[Name], number: u32) -> usize
    ensures { result ≡ surplus_count surplus.now number }
{
    surplus.iter().filter(|name| name.number == number).count()
}

/// How many names lead to the inode of a number; 2^32 - 1 stands for all that are more.
fn names_of(survey: &Survey, number: u32) -> u32
    ensures { result ≡ names_of survey.now number }
{
    let others = u32::try_from(surplus_count(&survey.surplus, number)).unwrap_or(u32::MAX);
    tally_at(&survey.tallies, number)
        .names
        .saturating_add(others)
}

/// How many links the inode of a number has at least after any crash.
fn least_links(survey: &Survey, number: u32) -> u32
    ensures { result ≡ least_links survey.now number }
{
    let names = names_of(survey, number);
    if number == 1 {
        names.saturating_add(1)
    } else {
        names
    }
}

/// What is wrong with the links of an inode; `links` is how many a mount would write.
fn links_finding(survey: &Survey, numbered: &Numbered, links: Option<u32>) -> Option<Finding>
    ensures { result ≡ links_finding survey.now numbered.now links }
{
    if numbered.inode.fields.links < least_links(survey, numbered.number) {
        return Some(Finding::FewLinks(numbered.number));
    }
    links.map(|_| Finding::ManyLinks(numbered.number))
}

/// What is wrong with the parent of a directory; `parent` is the one that a mount would write.
fn parent_finding(numbered: &Numbered, parent: Option<u32>) -> Option<Finding>
    ensures { result ≡ parent_finding numbered.now parent }
{
    parent.map(|_| Finding::Parent(numbered.number))
}

/// Adds a finding, if there is one.
fn push_if(findings: &mut Vec<Finding>, finding: Option<Finding>) -> Result<(), AllocError>
    ensures { IfOk result (λ _. findings.new.items ≡ findings.old.items ++ if_finding finding) }
{
    if let Some(finding) = finding {
        findings.push(finding)?;
    }
    Ok(())
}

/// What is wrong with the size of an inode.
fn long_finding(numbered: &Numbered) -> Option<Finding>
    ensures { result ≡ long_finding numbered.now }
{
    if numbered.inode.fields.size > GREATEST_SIZE {
        Some(Finding::TooLong(numbered.number))
    } else {
        None
    }
}

/// What is wrong with what stands past the size of an inode.
fn size_finding<S: Store>(store: &S, tree: Tree, numbered: &Numbered) -> Option<Finding>
    ensures { IsSizeFinding (readable (S.state_of store.now) tree.fs.number) numbered.now result }
{
    if is_trimmed(store, tree.fs, &numbered.inode) {
        None
    } else {
        Some(Finding::PastSize(numbered.number))
    }
}

/// Adds what is wrong with an inode.
fn push_inode<S: Store>(
    findings: &mut Vec<Finding>,
    store: &S,
    tree: Tree,
    survey: &Survey,
    numbered: &Numbered,
) -> Result<(), AllocError>
    ensures { IfOk result (λ _. (found : List Finding) × AreOfInode (readable (S.state_of store.now) tree.fs.number) survey.now numbered.now found
        × (findings.new.items ≡ findings.old.items ++ found)) }
{
    let plan = plan_inode(&survey.tallies, numbered.number, &numbered.inode);
    push_if(findings, links_finding(survey, numbered, plan.links))?;
    push_if(findings, parent_finding(numbered, plan.parent))?;
    push_if(findings, long_finding(numbered))?;
    push_if(findings, size_finding(store, tree, numbered))
}

/// Adds what is wrong with inodes, numbers rising.
pub fn push_inodes<S: Store>(
    findings: &mut Vec<Finding>,
    store: &S,
    tree: Tree,
    survey: &Survey,
) -> Result<(), AllocError>
    ensures { IfOk result (λ _. (found : List Finding) × AreInodeFindings (readable (S.state_of store.now) tree.fs.number) tree.top survey.now 1 found
        × (findings.new.items ≡ findings.old.items ++ found)) }
{
    let mut from = 1;
    while let Some(numbered) = next_inode(store, tree, from) {
        push_inode(findings, store, tree, survey, &numbered)?;
        from = numbered.number + 1;
    }
    Ok(())
}
