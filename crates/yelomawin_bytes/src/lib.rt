// The library called with numbers and byte lists, as the differential runs call it. Typed lists are lent as room only.
// Where a byte list is not of whole numbers, or lacks room, a call answers 254 and leaves every list as it was.
#![tactic(auto)]

ghost use Rattle.std.specs.Prelude.{◌≡◌, cond, ◌&&◌, [], length};
ghost use Rattle.std.specs.Float.{binary64};
ghost use Rattle.std.specs.Float.Ieee.{of_bits, to_bits};
ghost use Rattle.byte_lists.specs.Bytes.{ints_of, numbers_of, floats_of, bytes_of_floats};
ghost use Rattle.definitions.specs.Numbers.{zeroᶠ, rootᶠ};
ghost use Rattle.definitions.specs.Refusal.{work_left};
ghost use Rattle.definitions.specs.Matrix.{valid_of};
ghost use Rattle.definitions.specs.Diagonal.{diagonal_call};
ghost use Rattle.definitions.specs.Block.{blocks_call, block_apply_call};
ghost use Rattle.definitions.specs.Groups.{grouping_call, grouping_work_left};
ghost use Rattle.definitions.specs.JoiningLog.{grouping_log_call, grouping_in};
ghost use Rattle.definitions.specs.Estimate.{estimate_call};
ghost use Rattle.definitions.specs.Setup.{setup_of, lengths_of};
ghost use Rattle.two_level_setup.specs.Promises.{lent_of};
ghost use Rattle.definitions.specs.Apply.{apply_call};
ghost use Rattle.definitions.specs.Answers.{answer_of, answer_number, grouping_answer, grouping_log_answer, estimate_answer, answer_values, grouping_values, grouping_log_values, estimate_values};
ghost use Rattle.definitions.specs.Record.{are_policies, record_of, is_record};
ghost use Rattle.yelomawin.specs.Boundary.{options_of, whether};
ghost use Rattle.yelomawin_bytes.specs.Results.{bytes_setup, bytes_apply, LentLeft};
ghost use Rattle.yelomawin_bytes.specs.Calls.{misfit, reads, writes, matrix_of, matrix_fits, after, emptied, bytes_left, ids_left, log_bytes_left, MatrixEmptied, BothEmptied, ResultLeft, AnswerLeft};

mod fits;
mod rooms;

use byte_lists::zero;

pub fn yelomawin_bytes_root(bits: u64) -> u64
    ensures { result ≡ to_bits binary64 (rootᶠ (of_bits binary64 bits)) }
{
    let x = float_bits::of_bits(bits);
    let y = yelomawin::yelomawin_root(x);
    float_bits::bits_of(y)
}

pub fn yelomawin_bytes_validate(
    rows: u64,
    cols: u64,
    row_ptr: &[u8],
    col_idx: &[u8],
    values: &[u8],
    row_room: &mut [u32],
    col_room: &mut [u32],
    value_room: &mut [f64],
) -> u64
    ensures { let fits = matrix_fits row_ptr.now col_idx.now values.now row_room.old col_room.old value_room.old in
        (result ≡ cond fits (answer_number (answer_of (valid_of (matrix_of rows cols row_ptr.now col_idx.now values.now)))) misfit)
        × MatrixEmptied fits row_room.old col_room.old value_room.old row_room.new col_room.new value_room.new }
{
    if fits::matrix(row_ptr, col_idx, values, row_room, col_room, value_room) {
        rooms::read_matrix(row_ptr, col_idx, values, row_room, col_room, value_room);
        let number = yelomawin::yelomawin_validate(
            rows,
            cols,
            rooms::filled(row_ptr, row_room),
            rooms::filled(col_idx, col_room),
            rooms::filled(values, value_room),
        );
        rooms::clear_matrix(row_room, col_room, value_room);
        return number;
    }
    254
}

pub fn yelomawin_bytes_diagonal(
    rows: u64,
    cols: u64,
    row_ptr: &[u8],
    col_idx: &[u8],
    values: &[u8],
    row_room: &mut [u32],
    col_room: &mut [u32],
    value_room: &mut [f64],
    diagonal_room: &mut [f64],
    answer_room: &mut [u64],
    diagonal: &mut [u8],
    answer: &mut [u8],
) -> u64
    ensures { let fits = matrix_fits row_ptr.now col_idx.now values.now row_room.old col_room.old value_room.old
        && (writes 8 diagonal_room.old diagonal.old && writes 8 answer_room.old answer.old) in
        let o = diagonal_call (matrix_of rows cols row_ptr.now col_idx.now values.now) (length diagonal_room.old) in
        (result ≡ cond fits (answer_number (answer_of o)) misfit)
        × MatrixEmptied fits row_room.old col_room.old value_room.old row_room.new col_room.new value_room.new
        × ResultLeft fits (work_left zeroᶠ o) (bytes_left bytes_of_floats o) diagonal_room.old diagonal.old diagonal_room.new diagonal.new
        × AnswerLeft fits (answer_values (answer_of o)) answer_room.old answer.old answer_room.new answer.new }
{
    if fits::matrix(row_ptr, col_idx, values, row_room, col_room, value_room)
        && fits::output(diagonal_room, diagonal)
        && fits::output(answer_room, answer)
    {
        rooms::read_matrix(row_ptr, col_idx, values, row_room, col_room, value_room);
        let number = yelomawin::yelomawin_diagonal(
            rows,
            cols,
            rooms::filled(row_ptr, row_room),
            rooms::filled(col_idx, col_room),
            rooms::filled(values, value_room),
            diagonal_room,
            answer_room,
        );
        rooms::clear_matrix(row_room, col_room, value_room);
        rooms::hand(rooms::leaves_all(number), diagonal_room, diagonal);
        rooms::hand(false, answer_room, answer);
        return number;
    }
    254
}

pub fn yelomawin_bytes_blocks(
    rows: u64,
    cols: u64,
    row_ptr: &[u8],
    col_idx: &[u8],
    values: &[u8],
    block_size: u64,
    row_room: &mut [u32],
    col_room: &mut [u32],
    value_room: &mut [f64],
    factor_room: &mut [f64],
    answer_room: &mut [u64],
    factors: &mut [u8],
    answer: &mut [u8],
) -> u64
    ensures { let fits = matrix_fits row_ptr.now col_idx.now values.now row_room.old col_room.old value_room.old
        && (writes 8 factor_room.old factors.old && writes 8 answer_room.old answer.old) in
        let o = blocks_call (matrix_of rows cols row_ptr.now col_idx.now values.now) block_size (length factor_room.old) in
        (result ≡ cond fits (answer_number (answer_of o)) misfit)
        × MatrixEmptied fits row_room.old col_room.old value_room.old row_room.new col_room.new value_room.new
        × ResultLeft fits (work_left zeroᶠ o) (bytes_left bytes_of_floats o) factor_room.old factors.old factor_room.new factors.new
        × AnswerLeft fits (answer_values (answer_of o)) answer_room.old answer.old answer_room.new answer.new }
{
    if fits::matrix(row_ptr, col_idx, values, row_room, col_room, value_room)
        && fits::output(factor_room, factors)
        && fits::output(answer_room, answer)
    {
        rooms::read_matrix(row_ptr, col_idx, values, row_room, col_room, value_room);
        let number = yelomawin::yelomawin_blocks(
            rows,
            cols,
            rooms::filled(row_ptr, row_room),
            rooms::filled(col_idx, col_room),
            rooms::filled(values, value_room),
            block_size,
            factor_room,
            answer_room,
        );
        rooms::clear_matrix(row_room, col_room, value_room);
        rooms::hand(rooms::leaves_all(number), factor_room, factors);
        rooms::hand(false, answer_room, answer);
        return number;
    }
    254
}

pub fn yelomawin_bytes_block_apply(
    rows: u64,
    block_size: u64,
    factors: &[u8],
    residual: &[u8],
    factor_room: &mut [f64],
    residual_room: &mut [f64],
    correction_room: &mut [f64],
    answer_room: &mut [u64],
    correction: &mut [u8],
    answer: &mut [u8],
) -> u64
    ensures { let fits = (reads 8 factors.now factor_room.old && reads 8 residual.now residual_room.old)
        && (writes 8 correction_room.old correction.old && writes 8 answer_room.old answer.old) in
        let o = block_apply_call rows block_size (floats_of factors.now) (floats_of residual.now) (length correction_room.old) in
        (result ≡ cond fits (answer_number (answer_of o)) misfit)
        × BothEmptied fits zeroᶠ factor_room.old residual_room.old factor_room.new residual_room.new
        × ResultLeft fits (work_left zeroᶠ o) (bytes_left bytes_of_floats o) correction_room.old correction.old correction_room.new correction.new
        × AnswerLeft fits (answer_values (answer_of o)) answer_room.old answer.old answer_room.new answer.new }
{
    if fits::input(factors, factor_room)
        && fits::input(residual, residual_room)
        && fits::output(correction_room, correction)
        && fits::output(answer_room, answer)
    {
        rooms::read(factors, factor_room);
        rooms::read(residual, residual_room);
        let number = yelomawin::yelomawin_block_apply(
            rows,
            block_size,
            rooms::filled(factors, factor_room),
            rooms::filled(residual, residual_room),
            correction_room,
            answer_room,
        );
        zero(factor_room);
        zero(residual_room);
        rooms::hand(rooms::leaves_all(number), correction_room, correction);
        rooms::hand(false, answer_room, answer);
        return number;
    }
    254
}

// Grouping alone leaves all after every refusal.
pub fn yelomawin_bytes_group(
    nodes: u64,
    group_size: u64,
    offsets: &[u8],
    neighbours: &[u8],
    offset_room: &mut [u32],
    neighbour_room: &mut [u32],
    ids_room: &mut [u32],
    work: &mut [u32],
    answer_room: &mut [u64],
    ids: &mut [u8],
    answer: &mut [u8],
) -> u64
    ensures { let fits = (reads 4 offsets.now offset_room.old && reads 4 neighbours.now neighbour_room.old)
        && (writes 4 ids_room.old ids.old && writes 8 answer_room.old answer.old) in
        let g = grouping_call nodes group_size (ints_of offsets.now) (ints_of neighbours.now) (length ids_room.old) (length work.old) in
        (result ≡ cond fits (answer_number (grouping_answer g)) misfit)
        × BothEmptied fits 0 offset_room.old neighbour_room.old offset_room.new neighbour_room.new
        × ResultLeft fits (grouping_work_left g) (ids_left g) ids_room.old ids.old ids_room.new ids.new
        × (work.new ≡ after fits (grouping_work_left g) work.old)
        × AnswerLeft fits (grouping_values (grouping_answer g)) answer_room.old answer.old answer_room.new answer.new }
{
    if fits::input(offsets, offset_room)
        && fits::input(neighbours, neighbour_room)
        && fits::output(ids_room, ids)
        && fits::output(answer_room, answer)
    {
        rooms::read(offsets, offset_room);
        rooms::read(neighbours, neighbour_room);
        let number = yelomawin::yelomawin_group(
            nodes,
            group_size,
            rooms::filled(offsets, offset_room),
            rooms::filled(neighbours, neighbour_room),
            ids_room,
            work,
            answer_room,
        );
        zero(offset_room);
        zero(neighbour_room);
        rooms::hand(number != 0, ids_room, ids);
        rooms::hand(false, answer_room, answer);
        return number;
    }
    254
}

// So does grouping with a log.
pub fn yelomawin_bytes_group_log(
    nodes: u64,
    group_size: u64,
    offsets: &[u8],
    neighbours: &[u8],
    offset_room: &mut [u32],
    neighbour_room: &mut [u32],
    ids_room: &mut [u32],
    log_room: &mut [u32],
    work: &mut [u32],
    answer_room: &mut [u64],
    ids: &mut [u8],
    log: &mut [u8],
    answer: &mut [u8],
) -> u64
    ensures { let fits = (reads 4 offsets.now offset_room.old && reads 4 neighbours.now neighbour_room.old)
        && (writes 4 ids_room.old ids.old && (writes 4 log_room.old log.old && writes 8 answer_room.old answer.old)) in
        let g = grouping_log_call nodes group_size (ints_of offsets.now) (ints_of neighbours.now)
        (length ids_room.old) (length log_room.old) (length work.old) in
        (result ≡ cond fits (answer_number (grouping_log_answer g)) misfit)
        × BothEmptied fits 0 offset_room.old neighbour_room.old offset_room.new neighbour_room.new
        × ResultLeft fits (grouping_work_left (grouping_in g)) (ids_left (grouping_in g)) ids_room.old ids.old ids_room.new ids.new
        × ResultLeft fits (grouping_work_left (grouping_in g)) (log_bytes_left g) log_room.old log.old log_room.new log.new
        × (work.new ≡ after fits (grouping_work_left (grouping_in g)) work.old)
        × AnswerLeft fits (grouping_log_values (grouping_log_answer g)) answer_room.old answer.old answer_room.new answer.new }
{
    if fits::input(offsets, offset_room)
        && fits::input(neighbours, neighbour_room)
        && fits::output(ids_room, ids)
        && fits::output(log_room, log)
        && fits::output(answer_room, answer)
    {
        rooms::read(offsets, offset_room);
        rooms::read(neighbours, neighbour_room);
        let number = yelomawin::yelomawin_group_log(
            nodes,
            group_size,
            rooms::filled(offsets, offset_room),
            rooms::filled(neighbours, neighbour_room),
            ids_room,
            log_room,
            work,
            answer_room,
        );
        let kept = number != 0;
        zero(offset_room);
        zero(neighbour_room);
        rooms::hand(kept, ids_room, ids);
        rooms::hand(kept, log_room, log);
        rooms::hand(false, answer_room, answer);
        return number;
    }
    254
}

pub fn yelomawin_bytes_estimate(
    rows: u64,
    cols: u64,
    row_ptr: &[u8],
    col_idx: &[u8],
    values: &[u8],
    diagonal: &[u8],
    row_room: &mut [u32],
    col_room: &mut [u32],
    value_room: &mut [f64],
    diagonal_room: &mut [f64],
    work: &mut [f64],
    answer_room: &mut [u64],
    answer: &mut [u8],
) -> u64
    ensures { let fits = matrix_fits row_ptr.now col_idx.now values.now row_room.old col_room.old value_room.old
        && (reads 8 diagonal.now diagonal_room.old && writes 8 answer_room.old answer.old) in
        let o = estimate_call (matrix_of rows cols row_ptr.now col_idx.now values.now) (floats_of diagonal.now) (length work.old) in
        (result ≡ cond fits (answer_number (estimate_answer o)) misfit)
        × MatrixEmptied fits row_room.old col_room.old value_room.old row_room.new col_room.new value_room.new
        × (diagonal_room.new ≡ after fits (emptied zeroᶠ) diagonal_room.old)
        × (work.new ≡ after fits (work_left zeroᶠ o) work.old)
        × AnswerLeft fits (estimate_values (estimate_answer o)) answer_room.old answer.old answer_room.new answer.new }
{
    if fits::matrix(row_ptr, col_idx, values, row_room, col_room, value_room)
        && fits::input(diagonal, diagonal_room)
        && fits::output(answer_room, answer)
    {
        rooms::read(diagonal, diagonal_room);
        rooms::read_matrix(row_ptr, col_idx, values, row_room, col_room, value_room);
        let number = yelomawin::yelomawin_estimate(
            rows,
            cols,
            rooms::filled(row_ptr, row_room),
            rooms::filled(col_idx, col_room),
            rooms::filled(values, value_room),
            rooms::filled(diagonal, diagonal_room),
            work,
            answer_room,
        );
        rooms::clear_matrix(row_room, col_room, value_room);
        zero(diagonal_room);
        rooms::hand(false, answer_room, answer);
        return number;
    }
    254
}

pub fn yelomawin_bytes_setup(
    rows: u64,
    cols: u64,
    row_ptr: &[u8],
    col_idx: &[u8],
    values: &[u8],
    block_size: u64,
    group_size: u64,
    aggregation: u64,
    basis: u64,
    coarse_policy: u64,
    row_room: &mut [u32],
    col_room: &mut [u32],
    value_room: &mut [f64],
    ints_room: &mut [u32],
    floats_room: &mut [f64],
    work_ints: &mut [u32],
    work_floats: &mut [f64],
    record_room: &mut [u64],
    setup_ints: &mut [u8],
    setup_floats: &mut [u8],
    record: &mut [u8],
) -> u64
    ensures { let fits = matrix_fits row_ptr.now col_idx.now values.now row_room.old col_room.old value_room.old
        && (writes 4 ints_room.old setup_ints.old
        && (writes 8 floats_room.old setup_floats.old && writes 8 record_room.old «record».old)) in
        let made = fits && are_policies aggregation basis coarse_policy in
        let lent = lent_of ints_room.old floats_room.old work_ints.old work_floats.old in
        let a = matrix_of rows cols row_ptr.now col_idx.now values.now in
        let s = setup_of a (options_of block_size group_size aggregation basis coarse_policy) (lengths_of lent) in
        let h = bytes_setup fits a block_size group_size aggregation basis coarse_policy lent
        record_room.old setup_ints.old setup_floats.old «record».old in
        (result ≡ h.number)
        × MatrixEmptied fits row_room.old col_room.old value_room.old row_room.new col_room.new value_room.new
        × LentLeft made s lent (lent_of ints_room.new floats_room.new work_ints.new work_floats.new)
        × (record_room.new ≡ after fits (emptied 0) record_room.old)
        × (setup_ints.new ≡ h.ints)
        × (setup_floats.new ≡ h.floats)
        × («record».new ≡ h.numbers) }
{
    if fits::matrix(row_ptr, col_idx, values, row_room, col_room, value_room)
        && fits::output(ints_room, setup_ints)
        && fits::output(floats_room, setup_floats)
        && fits::output(record_room, record)
    {
        rooms::read_matrix(row_ptr, col_idx, values, row_room, col_room, value_room);
        let number = yelomawin::yelomawin_setup(
            rows,
            cols,
            rooms::filled(row_ptr, row_room),
            rooms::filled(col_idx, col_room),
            rooms::filled(values, value_room),
            block_size,
            group_size,
            aggregation,
            basis,
            coarse_policy,
            ints_room,
            floats_room,
            work_ints,
            work_floats,
            record_room,
        );
        rooms::clear_matrix(row_room, col_room, value_room);
        let kept = rooms::leaves_all(number);
        rooms::hand(kept, ints_room, setup_ints);
        rooms::hand(kept, floats_room, setup_floats);
        rooms::hand(false, record_room, record);
        return number;
    }
    254
}

pub fn yelomawin_bytes_apply(
    record: &[u8],
    setup_ints: &[u8],
    setup_floats: &[u8],
    residual: &[u8],
    record_room: &mut [u64],
    ints_room: &mut [u32],
    floats_room: &mut [f64],
    residual_room: &mut [f64],
    correction_room: &mut [f64],
    work: &mut [f64],
    answer_room: &mut [u64],
    correction: &mut [u8],
    answer: &mut [u8],
) -> u64
    ensures { let fits = (reads 8 «record».now record_room.old && (reads 4 setup_ints.now ints_room.old
        && (reads 8 setup_floats.now floats_room.old && reads 8 residual.now residual_room.old)))
        && (writes 8 correction_room.old correction.old && writes 8 answer_room.old answer.old) in
        let n = numbers_of «record».now in
        let known = is_record n in
        let f = floats_of setup_floats.now in
        let room = length correction_room.old in
        let workRoom = length work.old in
        let o = apply_call (record_of n) (ints_of setup_ints.now) f (floats_of residual.now) room workRoom in
        let h = bytes_apply fits «record».now setup_ints.now setup_floats.now residual.now room workRoom correction.old in
        (result ≡ h.number)
        × BothEmptied fits 0 record_room.old ints_room.old record_room.new ints_room.new
        × BothEmptied fits zeroᶠ floats_room.old residual_room.old floats_room.new residual_room.new
        × (correction_room.new ≡ after (fits && known) (work_left zeroᶠ o) correction_room.old)
        × (work.new ≡ after (fits && known) (work_left zeroᶠ o) work.old)
        × (correction.new ≡ h.correction)
        × AnswerLeft fits (whether known (answer_values (answer_of o)) []) answer_room.old answer.old answer_room.new answer.new }
{
    if fits::input(record, record_room)
        && fits::input(setup_ints, ints_room)
        && fits::input(setup_floats, floats_room)
        && fits::input(residual, residual_room)
        && fits::output(correction_room, correction)
        && fits::output(answer_room, answer)
    {
        rooms::read(record, record_room);
        rooms::read(setup_ints, ints_room);
        rooms::read(setup_floats, floats_room);
        rooms::read(residual, residual_room);
        let number = yelomawin::yelomawin_apply(
            rooms::filled(record, record_room),
            rooms::filled(setup_ints, ints_room),
            rooms::filled(setup_floats, floats_room),
            rooms::filled(residual, residual_room),
            correction_room,
            work,
            answer_room,
        );
        zero(record_room);
        zero(ints_room);
        zero(floats_room);
        zero(residual_room);
        rooms::hand(rooms::leaves_all(number), correction_room, correction);
        rooms::hand(false, answer_room, answer);
        return number;
    }
    254
}
