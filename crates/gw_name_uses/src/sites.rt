//! All uses of a text, each with its place.

ghost use Rattle.std.specs.Prelude.{◌≡◌, ◌∷◌, [], map, IfOk};
ghost use Rattle.gw_name_uses.specs.Mentions.{mentions};
ghost use Rattle.gw_name_uses.specs.Sites.{PutsSites, mention_at, all_at, mentioned_by, mentioned_in};

use crate::statements::put_uses;
use crate::uses::Use;
use gw_text::Statement;
use std::alloc::{AllocError, Global};

/// A use, and where it stands.
#[derive(Clone, Copy)]
pub struct Site<'a> {
    /// The statement, from 0.
    pub statement: usize,
    /// The line on which that begins.
    pub line: u32,
    /// What it uses.
    pub used: Use<'a>,
}

/// Behind what there is, the uses of a statement with its place.
fn put_sites<'a>(
    sites: &mut Vec<Site<'a>>,
    statement: usize,
    line: u32,
    uses: &[Use<'a>],
) -> Result<(), AllocError>
    ensures { PutsSites result sites.old sites.new (all_at statement line (mentions uses.now)) }
{
    for i in 0..uses.len() {
        let used = uses[i];
        let site = Site {
            statement,
            line,
            used,
        };
        put_site(sites, site)?;
    }
    Ok(())
}

/// One more.
fn put_site<'a>(sites: &mut Vec<Site<'a>>, site: Site<'a>) -> Result<(), AllocError>
    ensures { PutsSites result sites.old sites.new (mention_at site.entry ∷ []) }
{
    match sites.push(site) {
        Ok(()) => Ok(()),
        Err(_) => Err(AllocError),
    }
}

/// Behind what there is, the uses of the statement of this number, from 0.
fn put_sites_of<'a>(
    alloc: Global,
    sites: &mut Vec<Site<'a>>,
    number: usize,
    statement: &'a Statement,
) -> Result<(), AllocError>
    ensures { PutsSites result sites.old sites.new (mentioned_by number statement.now) }
{
    let mut uses = Vec::new(alloc);
    put_uses(&mut uses, statement)?;
    put_sites(sites, number, statement.line, uses.as_slice())
}

/// All uses of a text, in its order.
pub fn uses_in<'a>(alloc: Global, statements: &'a [Statement]) -> Result<Vec<Site<'a>>, AllocError>
    ensures { IfOk result (λ sites. map mention_at sites.items ≡ mentioned_in statements.now) }
{
    let mut sites = Vec::new(alloc);
    for i in 0..statements.len() {
        put_sites_of(alloc, &mut sites, i, &statements[i])?;
    }
    Ok(sites)
}
