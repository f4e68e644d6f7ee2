// The calls of `collector` for C: each calls the function of its name, and promises the same.
#![tactic(auto)]

ghost use Rattle.std.specs.Prelude.{◌≡◌};
ghost use Rattle.collector.specs.Paper.{start_call, collect_call};

// Makes a collector as it must be before the first page.
#[unsafe(no_mangle)]
pub extern "C" fn cb_start_collector(collector: &mut [u8]) -> u32
    ensures { record { number = result; collector = collector.new } ≡ start_call collector.old }
{
    collector::cb_start_collector(collector)
}

// Takes a page; a message that it makes whole is written to output.
#[unsafe(no_mangle)]
pub extern "C" fn cb_collect(
    collector: &mut [u8],
    page: &[u8],
    received: usize,
    output: &mut [u8],
) -> u32
    ensures { record { returned = result; collector = collector.new; output = output.new } ≡ collect_call collector.old page.now received output.old }
{
    collector::cb_collect(collector, page, received, output)
}
