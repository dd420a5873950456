//! The sums and means of a system, as the numbers of its row in the order of the columns.

use measures::Summary;

/// How many numbers a system's row has behind the names.
pub(crate) const FIGURES: usize = 17;

/// The numbers of a summary: its counts, its means, and the precision at each cut-off.
pub(crate) fn figures_of(summary: &Summary) -> [u64; FIGURES] {
    let at = &summary.at;
    [
        u64::from(summary.topics),
        summary.ret,
        summary.rel,
        summary.rel_ret,
        summary.map,
        summary.r_prec,
        summary.bpref,
        summary.recip,
        at[0],
        at[1],
        at[2],
        at[3],
        at[4],
        at[5],
        at[6],
        at[7],
        at[8],
    ]
}

/// The summary of these numbers; none where the topics are too many.
pub(crate) fn summary_of(figures: &[u64; FIGURES]) -> Option<Summary> {
    let topics = u32::try_from(figures[0]).ok()?;
    Some(Summary {
        topics,
        ret: figures[1],
        rel: figures[2],
        rel_ret: figures[3],
        map: figures[4],
        r_prec: figures[5],
        bpref: figures[6],
        recip: figures[7],
        at: [
            figures[8],
            figures[9],
            figures[10],
            figures[11],
            figures[12],
            figures[13],
            figures[14],
            figures[15],
            figures[16],
        ],
    })
}
