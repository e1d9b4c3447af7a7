// The price list that a stage manager reads: what it costs to end each bar at a few ticks, whatever the tariff.
use crate::bars::name_of;
use costs::CostKind;
use sheet::Sheet;
use std::alloc::{AllocError, Global};
use std::fmt::Display;
use tariffs::{Tariff, price_list};

// The ticks that are priced.
const ENDS: [u32; 5] = [100, 150, 200, 250, 300];

// Prints a line for each bar of the sheet whose curve the tariff has.
pub(crate) fn show<C: CostKind + Display, T: Tariff<Cost = C>>(
    rt: &HostRuntime,
    sheet: &Sheet,
    tariff: &T,
) -> anyhow::Result<()> {
    show_ends(rt)?;
    for m in sheet.moves().iter() {
        let curve = sheet.figures_of(m).curve;
        if curve < tariff.count() {
            show_bar(rt, m.get(), tariff, curve)?;
        }
    }
    Ok(())
}

// Prints the ticks that are priced.
fn show_ends(rt: &HostRuntime) -> anyhow::Result<()> {
    print!(rt; "bar  ends at tick     ")?;
    for end in ENDS {
        print!(rt; "  {end:>6}")?;
    }
    println!(rt)?;
    Ok(())
}

// Prints the line of one bar, which is priced by curve k.
fn show_bar<C: CostKind + Display, T: Tariff<Cost = C>>(
    rt: &HostRuntime,
    n: u64,
    tariff: &T,
    k: u8,
) -> anyhow::Result<()> {
    let name = name_of(n);
    print!(rt; "{n:>3}  {name:<17}")?;
    let prices = priced(rt.alloc(), tariff, k)?;
    for price in &prices {
        let text = price.to_string(rt.alloc())?;
        print!(rt; "  {text:>6}")?;
    }
    println!(rt)?;
    Ok(())
}

// What it costs by curve k to end at each of the ticks; on the heap, since the size of a cost is not known here.
fn priced<C: CostKind, T: Tariff<Cost = C>>(
    heap: Global,
    tariff: &T,
    k: u8,
) -> Result<Vec<C>, AllocError> {
    let mut prices = vec![in heap; tariff.cost(k, 0); ENDS.len()]?;
    price_list(tariff, k, &ENDS, &mut prices);
    Ok(prices)
}
