// The calls of include/lintelkite.h.
ghost use Rattle.std.specs.Prelude.{◌≤◌};

use words::Refusal;

#[derive(Clone, Copy, Debug, PartialEq, Eq, PartialOrd, Ord)]
pub enum Call {
    DigitsSize,
    CodeSize,
    BlockSize,
    DigitsPack,
    DigitsRead,
    ScalarEncode,
    ScalarTable,
    ScalarDistance,
    Root,
    CodeEncode,
    CodeBit,
    BlockPack,
    BlockLane,
    QuerySum,
    CodeSum,
    BlockSums,
    CodeRough,
    CodeLowerBound,
    BlockRough,
    BlockLowerBounds,
    Walk,
    RerankNext,
    RerankSupply,
}

// The calls by their names in the header, without lk_, in its order. One table, read in both ways: a TryFrom and a Display beside each other
// would say the 23 names twice.
pub const CALLS: [(&str, Call); 23] = [
    ("digits_size", Call::DigitsSize),
    ("code_size", Call::CodeSize),
    ("block_size", Call::BlockSize),
    ("digits_pack", Call::DigitsPack),
    ("digits_read", Call::DigitsRead),
    ("scalar_encode", Call::ScalarEncode),
    ("scalar_table", Call::ScalarTable),
    ("scalar_distance", Call::ScalarDistance),
    ("root", Call::Root),
    ("code_encode", Call::CodeEncode),
    ("code_bit", Call::CodeBit),
    ("block_pack", Call::BlockPack),
    ("block_lane", Call::BlockLane),
    ("query_sum", Call::QuerySum),
    ("code_sum", Call::CodeSum),
    ("block_sums", Call::BlockSums),
    ("code_rough", Call::CodeRough),
    ("code_lower_bound", Call::CodeLowerBound),
    ("block_rough", Call::BlockRough),
    ("block_lower_bounds", Call::BlockLowerBounds),
    ("walk", Call::Walk),
    ("rerank_next", Call::RerankNext),
    ("rerank_supply", Call::RerankSupply),
];

impl Call {
    // The call of that name.
    pub fn named(name: &[u8]) -> Option<Call> {
        CALLS
            .into_iter()
            .find(|(its, _)| its.as_bytes() == name)
            .map(|(_, call)| call)
    }

    // How many numbers and buffers it takes.
    pub fn takes(self) -> (usize, usize)
        ensures { (result.0 ≤ 9) × (result.1 ≤ 6) }
    {
        match self {
            Call::CodeSize | Call::BlockSize | Call::Root => (1, 1),
            Call::DigitsSize => (2, 1),
            Call::BlockPack | Call::QuerySum => (1, 2),
            Call::DigitsPack | Call::CodeBit | Call::BlockLane => (2, 2),
            Call::DigitsRead => (3, 2),
            Call::CodeEncode | Call::CodeSum | Call::BlockSums => (1, 3),
            Call::ScalarDistance => (3, 3),
            Call::CodeRough | Call::CodeLowerBound | Call::BlockRough | Call::BlockLowerBounds => (
                5, 3,
            ),
            Call::RerankNext => (0, 4),
            Call::ScalarEncode | Call::RerankSupply => (2, 4),
            Call::ScalarTable => (3, 4),
            Call::Walk => (9, 6),
        }
    }

    // How many of its buffers it writes: these are the last ones.
    pub fn written(self) -> usize
        ensures { result ≤ 4 }
    {
        match self {
            Call::Walk => 4,
            Call::RerankNext => 2,
            Call::RerankSupply => 3,
            _ => 1,
        }
    }

    // What it returns for these numbers and buffers; none where it doesn't take as many. By groups: one match over all of the calls was
    // beyond the check's limits.
    pub fn make(self, numbers: &[u32], buffers: &mut [Vec<u8>]) -> Option<Result<(), Refusal>> {
        match self {
            Call::DigitsSize | Call::CodeSize | Call::BlockSize => self.size(numbers, buffers),
            Call::DigitsPack | Call::DigitsRead | Call::Root => self.digits_or_root(
                numbers, buffers,
            ),
            Call::ScalarEncode | Call::ScalarTable | Call::ScalarDistance => {
                self.scalar(numbers, buffers)
            }
            Call::CodeEncode | Call::CodeBit => self.code(numbers, buffers),
            Call::BlockPack | Call::BlockLane => self.block(numbers, buffers),
            Call::QuerySum | Call::CodeSum | Call::BlockSums => self.sum(numbers, buffers),
            Call::CodeRough | Call::CodeLowerBound | Call::BlockRough | Call::BlockLowerBounds =>
                self.estimate(numbers, buffers),
            Call::Walk | Call::RerankNext | Call::RerankSupply => self.rank(numbers, buffers),
        }
    }

    fn size(self, numbers: &[u32], buffers: &mut [Vec<u8>]) -> Option<Result<(), Refusal>> {
        match (self, numbers, buffers) {
            (Call::DigitsSize, [dims, bits], [out]) => {
                Some(lintelkite::lk_digits_size(*dims, *bits, out))
            }
            (Call::CodeSize, [dims], [out]) => Some(lintelkite::lk_code_size(*dims, out)),
            (Call::BlockSize, [dims], [out]) => Some(lintelkite::lk_block_size(*dims, out)),
            _ => None,
        }
    }

    fn digits_or_root(
        self,
        numbers: &[u32],
        buffers: &mut [Vec<u8>],
    ) -> Option<Result<(), Refusal>> {
        match (self, numbers, buffers) {
            (Call::DigitsPack, [dims, bits], [codes, packed]) => {
                Some(lintelkite::lk_digits_pack(*dims, *bits, codes, packed))
            }
            (Call::DigitsRead, [dims, bits, index], [packed, out]) => Some(
                lintelkite::lk_digits_read(*dims, *bits, packed, *index, out),
            ),
            (Call::Root, [x], [out]) => Some(lintelkite::lk_root(float(*x), out)),
            _ => None,
        }
    }

    fn scalar(self, numbers: &[u32], buffers: &mut [Vec<u8>]) -> Option<Result<(), Refusal>> {
        match (self, numbers, buffers) {
            (Call::ScalarEncode, [dims, bits], [vector, min, max, code]) => Some(
                lintelkite::lk_scalar_encode(*dims, *bits, vector, min, max, code),
            ),
            (Call::ScalarTable, [metric, dims, bits], [vector, min, max, table]) => Some(
                lintelkite::lk_scalar_table(*metric, *dims, *bits, vector, min, max, table),
            ),
            (Call::ScalarDistance, [metric, dims, bits], [table, code, out]) => Some(
                lintelkite::lk_scalar_distance(*metric, *dims, *bits, table, code, out),
            ),
            _ => None,
        }
    }

    fn code(self, numbers: &[u32], buffers: &mut [Vec<u8>]) -> Option<Result<(), Refusal>> {
        match (self, numbers, buffers) {
            (Call::CodeEncode, [dims], [factors, vector, code]) => {
                Some(lintelkite::lk_code_encode(*dims, factors, vector, code))
            }
            (Call::CodeBit, [dims, index], [code, out]) => {
                Some(lintelkite::lk_code_bit(*dims, code, *index, out))
            }
            _ => None,
        }
    }

    fn block(self, numbers: &[u32], buffers: &mut [Vec<u8>]) -> Option<Result<(), Refusal>> {
        match (self, numbers, buffers) {
            (Call::BlockPack, [dims], [codes, block]) => {
                Some(lintelkite::lk_block_pack(*dims, codes, block))
            }
            (Call::BlockLane, [dims, lane], [block, code]) => {
                Some(lintelkite::lk_block_lane(*dims, block, *lane, code))
            }
            _ => None,
        }
    }

    fn sum(self, numbers: &[u32], buffers: &mut [Vec<u8>]) -> Option<Result<(), Refusal>> {
        match (self, numbers, buffers) {
            (Call::QuerySum, [dims], [query, out]) => {
                Some(lintelkite::lk_query_sum(*dims, query, out))
            }
            (Call::CodeSum, [dims], [query, code, out]) => {
                Some(lintelkite::lk_code_sum(*dims, query, code, out))
            }
            (Call::BlockSums, [dims], [query, block, out]) => {
                Some(lintelkite::lk_block_sums(*dims, query, block, out))
            }
            _ => None,
        }
    }

    fn estimate(self, numbers: &[u32], buffers: &mut [Vec<u8>]) -> Option<Result<(), Refusal>> {
        let ([metric, dims, d, b, k], [query, of, out]) = (numbers, buffers) else {
            return None;
        };
        let (metric, dims) = (*metric, *dims);
        let (d, b, k) = (float(*d), float(*b), float(*k));
        match self {
            Call::CodeRough => Some(lintelkite::lk_code_rough(
                metric, dims, d, b, k, query, of, out,
            )),
            Call::CodeLowerBound => Some(lintelkite::lk_code_lower_bound(
                metric, dims, d, b, k, query, of, out,
            )),
            Call::BlockRough => Some(lintelkite::lk_block_rough(
                metric, dims, d, b, k, query, of, out,
            )),
            Call::BlockLowerBounds => Some(lintelkite::lk_block_lower_bounds(
                metric, dims, d, b, k, query, of, out,
            )),
            _ => None,
        }
    }

    fn rank(self, numbers: &[u32], buffers: &mut [Vec<u8>]) -> Option<Result<(), Refusal>> {
        match (self, numbers, buffers) {
            (
                Call::Walk,
                [metric, layout, dims, d, b, k, n, start, end],
                [query, records, ids, bounds, marks, count],
            ) => Some(lintelkite::lk_walk(
                *metric,
                *layout,
                *dims,
                float(*d),
                float(*b),
                float(*k),
                query,
                records,
                *n,
                *start,
                *end,
                ids,
                bounds,
                marks,
                count,
            )),
            (Call::RerankNext, [], [estimates, distances, marks, out]) => {
                Some(lintelkite::lk_rerank_next(estimates, distances, marks, out))
            }
            (Call::RerankSupply, [place, distance], [estimates, distances, marks, out]) => {
                Some(lintelkite::lk_rerank_supply(
                    estimates,
                    distances,
                    marks,
                    *place,
                    float(*distance),
                    out,
                ))
            }
            _ => None,
        }
    }
}

// The float of these bits. Those of any NaN are read as the one NaN.
fn float(bits: u32) -> f32 {
    words::f32_at(&bits.to_le_bytes(), 0)
}
