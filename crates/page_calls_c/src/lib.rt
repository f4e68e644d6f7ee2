// The calls of `page_calls` for C: each calls the function of its name, and promises the same.
#![tactic(auto)]

ghost use Rattle.std.specs.Prelude.{◌≡◌};
ghost use Rattle.page_calls.specs.Paper.{header_call, content_call};

// Reads a page's header: number + 2^8 × scheme + 2^16 × serial + 2^32 × identifier + 2^48 × parameter.
#[unsafe(no_mangle)]
pub extern "C" fn cb_read_header(page: &[u8]) -> u64
    ensures { result ≡ header_call page.now }
{
    page_calls::cb_read_header(page)
}

// Whether the content of what was received of a page can be handed back: the number.
#[unsafe(no_mangle)]
pub extern "C" fn cb_content(page: &[u8], received: usize) -> u32
    ensures { result ≡ content_call page.now received }
{
    page_calls::cb_content(page, received)
}
