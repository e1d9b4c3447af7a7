// What the bars of a scene change cost by the tick at which each of them ends.
#![tactic(auto)]

mod bars;
mod pricing;
mod refusals;
mod tariff;

fn main(rt: HostRuntime) -> anyhow::Result<()> {
    run(&rt)
}

fn run(rt: &HostRuntime) -> anyhow::Result<()> {
    let sheet = bars::on_a_sheet();
    println!(rt; "What a late bar costs, in points:")?;
    pricing::show(rt, &sheet, &tariff::in_points()?)?;
    println!(rt)?;
    println!(rt; "The first two by grades of harm, as grade/ticks late:")?;
    pricing::show(rt, &sheet, &tariff::by_grade()?)?;
    println!(rt)?;
    refusals::show(rt)?;
    Ok(())
}
