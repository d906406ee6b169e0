//! Lists of types as lists of page numbers.

ghost use Rattle.std.specs.Prelude.{◌≡◌, ◌<◌, ◌≤◌, ◌+◌, ◌%◌, ◌/◌, ◌∷◌, ◌++◌, [], nat_lt, replicate, if◌then◌else◌, ◌≢◌, length, IfOk, MatchBool, MatchOption};
ghost use Rattle.jtypes.specs.declared.types.JType.TheVariants.{Top};
ghost use Rattle.locals.specs.Fits.{each_fits};
ghost use Rattle.locals.specs.Held.{page, row_of, cut_of, blank_pages, AreFitting, AreInside, IsPlace};
ghost use Rattle.locals.specs.Written.{written};

use crate::compare::each_assignable;
use jtypes::{Items, JType};
use std::alloc::{AllocError, Global};

/// The number of local variables of a full page.
const WIDTH: usize = 256;

/// Returns whether the types of page `a` are assignable to those of page `declared`.
/// Pages with the same number, and pairs that `fitting` records, aren't compared. A new pair is recorded.
fn page_fits(pages: &[Items<JType>], fitting: &mut [usize], a: usize, declared: usize) -> bool
    requires inside { a < length pages.now }
    requires declared_inside { declared < length pages.now }
    requires fitting { AreFitting pages.now fitting.old }
    ensures fits { result ≡ each_fits (page pages.now a) (page pages.now declared) }
    ensures fitting { AreFitting pages.now fitting.new }
{
    if a == declared {
        return true;
    }
    if fitting[declared] == a {
        return true;
    }
    if !each_assignable(pages[a].as_slice(), pages[declared].as_slice()) {
        return false;
    }
    fitting[declared] = a;
    true
}

/// Returns whether each type of a list is assignable to the declared one. The lists have pages of the same lengths.
pub fn rows_fit(
    pages: &[Items<JType>],
    fitting: &mut [usize],
    row: &[usize],
    declared: &[usize],
) -> bool
    requires inside { AreInside pages.now row.now }
    requires declared_inside { AreInside pages.now declared.now }
    requires cut { cut_of pages.now declared.now ≡ cut_of pages.now row.now }
    requires len { length row.now ≡ length declared.now }
    requires fitting { AreFitting pages.now fitting.old }
    ensures fits { result ≡ each_fits (row_of pages.now row.now) (row_of pages.now declared.now) }
    ensures fitting { AreFitting pages.now fitting.new }
{
    for i in 0..row.len() {
        if !page_fits(pages, fitting, row[i], declared[i]) {
            return false;
        }
    }
    true
}

/// Returns the position in `row` of the page that has index `n`, and the offset in that page. `None` if `n` is past the end.
pub fn find(pages: &[Items<JType>], row: &[usize], n: usize) -> Option<(usize, usize)>
    requires { AreInside pages.now row.now }
    ensures { MatchOption result (length (row_of pages.now row.now) ≤ n) (λ p. IsPlace pages.now row.now n p.0 p.1) }
{
    let mut left = n;
    for i in 0..row.len() {
        let len = pages[row[i]].as_slice().len();
        if left < len {
            return Some((i, left));
        }
        left -= len;
    }
    None
}

/// Returns whether a page has these types from index `at` on.
pub fn has(page: &[JType], at: usize, types: &[JType]) -> bool
    requires { at + length types.now ≤ length page.now }
    ensures { MatchBool result (written page.now at types.now ≡ page.now) (written page.now at types.now ≢ page.now) }
{
    &page[at..at + types.len()] == types
}

/// Returns a copy of a page with these types from index `at` on.
pub fn page_with(
    alloc: Global,
    page: &[JType],
    at: usize,
    types: &[JType],
) -> Result<Items<JType>, AllocError>
    requires { at + length types.now ≤ length page.now }
    ensures { IfOk result (λ p. p ≡ written page.now at types.now) }
{
    let mut new = Vec::with_capacity(alloc, page.len())?;
    new.extend_from_slice(&page[..at])?;
    new.extend_from_slice(types)?;
    new.extend_from_slice(&page[at + types.len()..])?;
    Ok(Items::new(new))
}

/// Returns the pages of `count` local variables of type `Top`: the last page and, if there are others, one full page for all of them.
pub fn blank_pages(alloc: Global, count: usize) -> Result<Vec<Items<JType>>, AllocError>
    ensures { IfOk result (λ pages. pages.items ≡ blank_pages count) }
{
    let mut pages = Vec::new(alloc);
    pages.push(Items::new(vec![in alloc; JType::Top; count % WIDTH]?))?;
    if count < WIDTH {
        return Ok(pages);
    }
    pages.push(Items::new(vec![in alloc; JType::Top; WIDTH]?))?;
    Ok(pages)
}

/// Returns the page numbers of `count` local variables of type `Top`.
pub fn blank_row(alloc: Global, count: usize) -> Result<Vec<usize>, AllocError>
    ensures { IfOk result (λ row. row.items ≡ replicate (count / 256) 1 ++ 0 ∷ []) }
{
    let mut row = vec![in alloc; 1usize; count / WIDTH + 1]?;
    row[count / WIDTH] = 0;
    Ok(row)
}

/// Returns the number of each page: at first, each page is known to be assignable to itself.
pub fn own_numbers(alloc: Global, pages: &[Items<JType>]) -> Result<Vec<usize>, AllocError>
    ensures { IfOk result (λ fitting. AreFitting pages.now fitting.items) }
{
    let mut fitting = Vec::new(alloc);
    for i in 0..pages.len() {
        fitting.push(i)?;
    }
    Ok(fitting)
}
