// What a run has before its result is made.
ghost use Rattle.std.specs.Prelude.{◌≡◌};

use crate::opening::Forms;
use crate::report::RunReport;
use tce_cache::Cache;
use tce_code::Code;
use tce_layout::Layout;
use tce_nesting::Plan;
use tce_tree::Orders;
use tce_words::Words;

/// The plan by which a run goes, and the forms of its operands, which were opened.
#[derive(Drop)]
pub struct PlannedRun {
    pub plan: Plan,
    pub forms: Forms,
}

/// All that a run needs beside the disk.
#[derive(Drop)]
pub struct Prepared {
    /// The plan of the fusion by which it runs, with orders that carry it.
    pub plan: Plan,
    /// The orders in which its loops go, which carry the fusion too.
    pub orders: Orders,
    pub code: Code,
    /// Where the intermediates stand among the words.
    pub layout: Layout,
    /// The words of the intermediates, and behind them those of the frames.
    pub words: Words,
    pub cache: Cache,
    pub report: RunReport,
}

impl Prepared {
    /// The report, which is all that is left of a run that has ended.
    pub(crate) fn into_report(self) -> RunReport
        ensures { result ≡ self.report }
    {
        let Prepared {
            plan,
            orders,
            code,
            layout,
            words,
            cache,
            report,
        } = self;
        drop(plan);
        drop(orders);
        drop(code);
        drop(layout);
        drop(words);
        drop(cache);
        report
    }
}
