//! Tried are cells, their means and totals, the rounding to four decimals, and the printed lines.
ghost use Rattle.measures.specs.Cells.{IsSound};

use measures::{
    Cell, Summary, Totals, bpref_den, mean, scratch, write_cell, write_four, write_summary,
};
use std::alloc::Global;
use std::process::Abort;
use std::test::Fail;

#[test]
fn cell_and_summary_of_one_topic(rt: HostRuntime) {
    let cell = scratch(&[Some(1), Some(0), Some(1)], 3, 1, 1);
    let expected = Cell {
        ret: 3,
        rel: 3,
        rel_ret: 2,
        at: [2, 2, 2, 2, 2, 2, 2, 2, 2],
        r_prec: 2,
        first: 1,
        ap_sum: 1_666_666_666_666_666,
        bpref_num: 1,
        bpref_den: 3,
    };
    assert!(rt; cell == expected);
    let summary = mean(&[cell]);
    assert!(rt; summary.topics == 1);
    assert!(rt; (summary.ret, summary.rel, summary.rel_ret) == (3, 3, 2));
    assert!(rt; summary.map == 555_555_555_555_555);
    assert!(rt; summary.r_prec == 666_666_666_666_666);
    assert!(rt; summary.bpref == 333_333_333_333_333);
    assert!(rt; summary.recip == 1_000_000_000_000_000);
    assert!(rt; summary.at[1] == 200_000_000_000_000);
}

#[test]
fn totals_have_the_mean_of_their_cells(rt: HostRuntime) {
    assert!(rt; Totals::new().mean() == mean(&[]));
    let mut totals = Totals::new();
    totals.add(&scratch(&[Some(1), Some(0), Some(1)], 3, 1, 1));
    totals.add(&scratch(&[], 2, 1, 1));
    let summary = totals.mean();
    assert!(rt; summary.topics == 2);
    assert!(rt; (summary.ret, summary.rel, summary.rel_ret) == (3, 5, 2));
    assert!(rt; summary.map == 277_777_777_777_777);
    assert!(rt; summary.r_prec == 333_333_333_333_333);
    assert!(rt; summary.bpref == 166_666_666_666_666);
    assert!(rt; summary.recip == 500_000_000_000_000);
    assert!(rt; summary.at[1] == 100_000_000_000_000);
}

#[test]
fn unjudged_and_lower_grades_are_not_relevant(rt: HostRuntime) {
    let grades = [None, Some(1), Some(2), None, Some(0), Some(3)];
    let cell = scratch(&grades, 4, 2, 2);
    assert!(rt; cell.rel_ret == 2);
    assert!(rt; cell.at == [1, 2, 2, 2, 2, 2, 2, 2, 2]);
    // 1/3 and 2/6, each rounded down
    assert!(rt; cell.ap_sum == 333_333_333_333_333 + 2 * 166_666_666_666_666);
}

/// That the relevant documents within the first R ranks, the rank of the first one, and bpref's
/// numerator and denominator are these.
fn expect_cell(rt: &impl Abort, cell: &Cell, expected: (u32, u32, u64, u64)) {
    let found = (cell.r_prec, cell.first, cell.bpref_num, cell.bpref_den);
    assert!(rt; found == expected);
}

#[test]
fn bpref_is_over_the_relevant_times_its_cap(rt: HostRuntime) {
    assert!(rt; (bpref_den(0, 5), bpref_den(3, 0), bpref_den(3, 2)) == (1, 3, 6));
}

#[test]
fn bpref_counts_judged_documents_up_to_its_cap(rt: HostRuntime) {
    expect_cell(
        &rt,
        &scratch(&[Some(0), Some(1), Some(0), Some(1)], 2, 2, 1),
        (1, 2, 1, 4),
    );
    expect_cell(
        &rt,
        &scratch(&[Some(1), Some(0), Some(2)], 2, 1, 1),
        (1, 1, 1, 2),
    );
    // two are judged lower above the relevant one, and the cap is 1
    expect_cell(
        &rt,
        &scratch(&[Some(0), Some(0), Some(2)], 1, 2, 1),
        (0, 3, 0, 1),
    );
    // unjudged documents are passed over
    expect_cell(
        &rt,
        &scratch(&[None, Some(1), Some(0)], 2, 1, 1),
        (1, 2, 1, 2),
    );
    // none is judged lower
    expect_cell(
        &rt,
        &scratch(&[Some(1), Some(1), Some(1)], 4, 0, 1),
        (3, 1, 3, 4),
    );
    expect_cell(
        &rt,
        &scratch(&[None, Some(1), Some(1)], 3, 0, 1),
        (2, 2, 2, 3),
    );
    expect_cell(&rt, &scratch(&[Some(1), None, None], 2, 0, 1), (1, 1, 1, 2));
    // none is relevant
    expect_cell(&rt, &scratch(&[Some(0), None], 0, 1, 1), (0, 0, 0, 1));
    expect_cell(&rt, &scratch(&[], 0, 0, 1), (0, 0, 0, 1));
    // with level 2
    expect_cell(
        &rt,
        &scratch(&[Some(1), Some(2), Some(0)], 1, 2, 2),
        (0, 2, 0, 1),
    );
}

#[test]
fn each_mean_is_over_all_topics(rt: HostRuntime) {
    let one = scratch(&[Some(0), Some(1), Some(0)], 3, 3, 1);
    let other = scratch(&[Some(1), Some(0), Some(2)], 3, 3, 1);
    let absent = scratch(&[], 2, 0, 1);
    let unjudged = scratch(&[Some(0)], 0, 1, 1);
    let summary = mean(&[one, other, absent, unjudged]);
    let expected = Summary {
        topics: 4,
        ret: 7,
        rel: 8,
        rel_ret: 3,
        map: (166_666_666_666_666 + 555_555_555_555_555) / 4,
        r_prec: (333_333_333_333_333 + 666_666_666_666_666) / 4,
        bpref: (222_222_222_222_222 + 555_555_555_555_555) / 4,
        recip: 375_000_000_000_000,
        at: [
            150_000_000_000_000,
            75_000_000_000_000,
            (66_666_666_666_666 + 133_333_333_333_333) / 4,
            37_500_000_000_000,
            (33_333_333_333_333 + 66_666_666_666_666) / 4,
            7_500_000_000_000,
            3_750_000_000_000,
            1_500_000_000_000,
            750_000_000_000,
        ],
    };
    assert!(rt; summary == expected);
    assert!(rt; mean(&[]).map == 0);
}

#[test]
fn four_decimals_round_half_upwards(rt: HostRuntime) -> Result<(), Fail> {
    let rows: [(u64, &[u8]); 8] = [
        (0, b"0.0000"),
        (49_999_999_999, b"0.0000"),
        (50_000_000_000, b"0.0001"),
        (2_000_000_000_000, b"0.0020"),
        (166_666_666_666_666, b"0.1667"),
        (555_555_555_555_555, b"0.5556"),
        (999_950_000_000_000, b"1.0000"),
        (1_000_000_000_000_000, b"1.0000"),
    ];
    for (value, expected) in rows {
        assert!(rt; is_rounded(rt.alloc(), value, expected)?);
    }
    Ok(())
}

/// Whether a value up to 1 is written so, behind what stands there.
fn is_rounded(alloc: Global, value: u64, expected: &[u8]) -> Result<bool, Fail> {
    if value > 1_000_000_000_000_000 {
        return Ok(false);
    }
    let mut out = b"=".to_vec(alloc)?;
    write_four(value, &mut out)?;
    Ok(out.as_slice().strip_prefix(b"=") == Some(expected))
}

/// The lines of a cell of run X on topic 1.
fn printed(alloc: Global, cell: &Cell) -> Result<Vec<u8>, Fail>
    requires { IsSound cell.now }
{
    let mut out = b"=".to_vec(alloc)?;
    write_cell(b"X", b"1", cell, &mut out)?;
    Ok(out)
}

/// Such lines, from a measure and its value in each row.
fn spelled(alloc: Global, rows: &str) -> Result<Vec<u8>, Fail> {
    let mut out = b"=".to_vec(alloc)?;
    for row in rows.lines() {
        let (measure, value) = row.split_once(" ").ok_or("no value")?;
        out.extend_from_slice(b"X\t1\t")?;
        out.extend_from_slice(measure.as_bytes())?;
        out.extend_from_slice(b"\t")?;
        out.extend_from_slice(value.as_bytes())?;
        out.extend_from_slice(b"\n")?;
    }
    Ok(out)
}

/// Whether a cell is printed as these rows.
fn is_printed(alloc: Global, cell: &Cell, rows: &str) -> Result<bool, Fail>
    requires { IsSound cell.now }
{
    Ok(printed(alloc, cell)?.as_slice() == spelled(alloc, rows)?.as_slice())
}

#[test]
fn lines_of_a_cell(rt: HostRuntime) -> Result<(), Fail> {
    let alloc = rt.alloc();
    let rows =
        "num_ret 3\nnum_rel 3\nnum_rel_ret 1\nmap 0.1667\nRprec 0.3333\nbpref 0.2222\nrecip_rank 0.5000\nP_5 0.2000\nP_10 0.1000\nP_15 0.0667\nP_20 0.0500\nP_30 0.0333\nP_100 0.0100\nP_200 0.0050\nP_500 0.0020\nP_1000 0.0010\n";
    assert!(rt; is_printed(alloc, &scratch(&[Some(0), Some(1), Some(0)], 3, 3, 1), rows)?);
    let rows =
        "num_ret 3\nnum_rel 3\nnum_rel_ret 2\nmap 0.5556\nRprec 0.6667\nbpref 0.5556\nrecip_rank 1.0000\nP_5 0.4000\nP_10 0.2000\nP_15 0.1333\nP_20 0.1000\nP_30 0.0667\nP_100 0.0200\nP_200 0.0100\nP_500 0.0040\nP_1000 0.0020\n";
    assert!(rt; is_printed(alloc, &scratch(&[Some(1), Some(0), Some(2)], 3, 3, 1), rows)?);
    let rows =
        "num_ret 3\nnum_rel 2\nnum_rel_ret 2\nmap 0.8333\nRprec 0.5000\nbpref 0.5000\nrecip_rank 1.0000\nP_5 0.4000\nP_10 0.2000\nP_15 0.1333\nP_20 0.1000\nP_30 0.0667\nP_100 0.0200\nP_200 0.0100\nP_500 0.0040\nP_1000 0.0020\n";
    assert!(rt; is_printed(alloc, &scratch(&[Some(1), Some(0), Some(2)], 2, 1, 1), rows)?);
    let rows =
        "num_ret 3\nnum_rel 1\nnum_rel_ret 1\nmap 0.3333\nRprec 0.0000\nbpref 0.0000\nrecip_rank 0.3333\nP_5 0.2000\nP_10 0.1000\nP_15 0.0667\nP_20 0.0500\nP_30 0.0333\nP_100 0.0100\nP_200 0.0050\nP_500 0.0020\nP_1000 0.0010\n";
    assert!(rt; is_printed(alloc, &scratch(&[Some(0), Some(0), Some(2)], 1, 2, 1), rows)?);
    Ok(())
}

#[test]
fn lines_of_a_summary(rt: HostRuntime) -> Result<(), Fail> {
    let cell = scratch(&[Some(1), Some(0), Some(1)], 3, 1, 1);
    let mut out = Vec::new(rt.alloc());
    write_summary(b"r.txt", &mean(&[cell]), &mut out)?;
    let expected =
        b"r.txt\tall\tnum_q\t1\nr.txt\tall\tnum_ret\t3\nr.txt\tall\tnum_rel\t3\nr.txt\tall\tnum_rel_ret\t2\nr.txt\tall\tmap\t0.5556\nr.txt\tall\tRprec\t0.6667\nr.txt\tall\tbpref\t0.3333\nr.txt\tall\trecip_rank\t1.0000\nr.txt\tall\tP_5\t0.4000\nr.txt\tall\tP_10\t0.2000\nr.txt\tall\tP_15\t0.1333\nr.txt\tall\tP_20\t0.1000\nr.txt\tall\tP_30\t0.0667\nr.txt\tall\tP_100\t0.0200\nr.txt\tall\tP_200\t0.0100\nr.txt\tall\tP_500\t0.0040\nr.txt\tall\tP_1000\t0.0020\n";
    assert!(rt; out.as_slice() == expected.as_slice());
    Ok(())
}
