// The exercise book (document 02, Card 13): a line for each tree of 2 to 5 sites with sizes 0 to 2, page by page. A page is a choice of links.
#![tactic(auto)]

ghost use Rattle.std.specs.Prelude.{◌≡◌};
ghost use Rattle.books.specs.Outcome.{choices, page_into};

use model::Refusal;

// The number of pages for so many sites, a page for each choice of links between them; 0 where the book has no trees of so many sites.
pub fn choices(sites: usize) -> usize
    ensures { result ≡ choices sites }
{
    if sites == 2 {
        return 2;
    }
    if sites == 3 {
        return 8;
    }
    if sites == 4 {
        return 64;
    }
    if sites == 5 {
        return 1024;
    }
    0
}

// Writes the lines of the page of a choice of links between so many sites into the front of a lent buffer and tells their length, 0 where there is no such
// page or its links are no tree; or refuses a buffer too short for them, and leaves it as it was.
pub fn page(sites: usize, choice: usize, buffer: &mut [u8]) -> Result<usize, Refusal>
    ensures told { result ≡ (page_into sites choice buffer.old).outcome }
    ensures left { buffer.new ≡ (page_into sites choice buffer.old).buffer }
{
    if choices(sites) <= choice {
        return Ok(0);
    }
    let mut measured = [0u8; 1];
    let length = book_lines::put_page(&mut measured, sites, choice as u64);
    if buffer.len() < length {
        return Err(Refusal { number: 9, line: 0 });
    }
    book_lines::put_page(buffer, sites, choice as u64);
    Ok(length)
}
