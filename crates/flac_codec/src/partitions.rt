//! The choice of the partitions of a residual. Any choice is valid: only the size of what is written depends on it.
ghost use Rattle.std.specs.Prelude.{◌≡◌, ◌+◌, ◌-◌, ◌/◌, ◌%◌, ◌^◌, ◌<◌, ◌≤◌, true, length};

use crate::choice::{best_parameter, expected_bits, likely_parameter, rice_bits, sum_of_places};

/// The partitions of a residual.
#[derive(Clone, Copy)]
pub(crate) struct Partitions {
    /// The number of partitions is two to the power of this order.
    pub(crate) order: u32,
    /// The coding: 0 if each parameter has four bits, and 1 if it has five.
    pub(crate) coding: u8,
}

/// The greatest order of partitions that is tried.
const MOST_ORDER: u32 = 8;

/// Returns the partitions that are expected to make a block's residual shortest. `numbers` is the residual, and `order`
/// the number of samples before it.
pub(crate) fn best_partitions(numbers: &[i64], order: usize) -> Partitions
    requires { order ≤ 32 }
    ensures coding { result.coding ≤ 1 }
    ensures few { result.order ≤ 8 }
    ensures whole { (order + length numbers.now) % 2 ^ result.order ≡ 0 }
    ensures long { order ≤ (order + length numbers.now) / 2 ^ result.order }
{
    let found = shortest_partitions(numbers, order).partitions;
    let coding = found.coding.min(1);
    if can_divide(order + numbers.len(), order, found.order) {
        return Partitions {
            order: found.order,
            coding,
        };
    }
    Partitions { order: 0, coding }
}

/// Returns the number of bits of the residual of a block after its first `order` samples, in the partitions that are
/// chosen for it, modulo 2^64.
pub(crate) fn residual_bits(numbers: &[i64], order: usize) -> u64
    requires { order ≤ 32 }
{
    let partitions = best_partitions(numbers, order);
    let bits = 4 + partitions.coding as u32;
    let size = (order + numbers.len()) >> partitions.order;
    let first = size.saturating_sub(order).min(numbers.len());
    let mut total = partition_bits(&numbers[..first], bits).wrapping_add(6);
    for part in numbers[first..].chunks(size.max(1)) {
        total = total.wrapping_add(partition_bits(part, bits));
    }
    total
}

/// Returns the number of bits of a partition whose parameter has `bits` bits, modulo 2^64.
fn partition_bits(numbers: &[i64], bits: u32) -> u64
    requires some { 1 ≤ bits }
    requires most { bits ≤ 5 }
{
    let parameter = best_parameter(numbers, greatest_parameter(bits));
    rice_bits(numbers, parameter).wrapping_add(bits as u64)
}

/// Returns the greatest parameter of `bits` bits. One more means that the numbers are not coded.
pub(crate) fn greatest_parameter(bits: u32) -> u32
    requires some { 1 ≤ bits }
    requires most { bits ≤ 5 }
    ensures few { result < 31 }
    ensures coded { result < 2 ^ bits - 1 }
{
    (1u32 << bits) - 2
}

/// Returns true if a block has 2^n equal partitions, which are longer than `order`.
fn can_divide(block_size: usize, order: usize, n: u32) -> bool
    ensures few { result ≡ true → n ≤ 8 }
    ensures whole { result ≡ true → block_size % 2 ^ n ≡ 0 }
    ensures long { result ≡ true → order ≤ block_size / 2 ^ n }
{
    if n > MOST_ORDER {
        return false;
    }
    let partitions = 1usize << n;
    block_size % partitions == 0 && block_size / partitions > order
}

/// Returns the partitions for which fewest bits are expected.
fn shortest_partitions(numbers: &[i64], order: usize) -> Expected
    requires { order ≤ 32 }
{
    let most = greatest_order(order + numbers.len(), order);
    let size = (order + numbers.len()) >> most;
    let mut sums = sums_of_parts(numbers, order, size);
    let mut best = size_of_order(&sums, most, size, order);
    for below in 0..most {
        let n = most - 1 - below;
        sums = joined(&sums);
        let next = size_of_order(&sums, n, (order + numbers.len()) >> n, order);
        if next.size <= best.size {
            best = next;
        }
    }
    best
}

/// Returns the greatest order of partitions that a block can have.
fn greatest_order(block_size: usize, order: usize) -> u32
    ensures { result ≤ 8 }
{
    for less in 0..MOST_ORDER {
        if can_divide(block_size, order, MOST_ORDER - less) {
            return MOST_ORDER - less;
        }
    }
    0
}

/// Returns the sum of the places of the numbers of each partition of `size` samples. The first one lacks `order` of them.
fn sums_of_parts(numbers: &[i64], order: usize, size: usize) -> [u64; 256] {
    let first = size.saturating_sub(order).min(numbers.len());
    let mut sums = [0u64; 256];
    sums[0] = sum_of_places(&numbers[..first]);
    for (k, part) in numbers[first..].chunks(size.max(1)).enumerate() {
        if k < 255 {
            sums[k + 1] = sum_of_places(part);
        }
    }
    sums
}

/// Returns the sums of partitions that are twice as long.
fn joined(sums: &[u64; 256]) -> [u64; 256] {
    let mut halves = [0u64; 256];
    for k in 0..128usize {
        halves[k] = sums[2 * k].wrapping_add(sums[2 * k + 1]);
    }
    halves
}

/// Partitions, and the number of bits that is expected for them.
#[derive(Clone, Copy)]
struct Expected {
    partitions: Partitions,
    size: u64,
}

/// Returns what is expected for 2^n partitions with these sums.
fn size_of_order(sums: &[u64; 256], n: u32, size: usize, order: usize) -> Expected
    requires { n ≤ 8 }
{
    let count = 1usize << n;
    let mut total = 0u64;
    let mut coding = 0u8;
    for (k, sum) in sums.iter().take(count).enumerate() {
        let numbers = if k == 0 {
            size.saturating_sub(order)
        } else {
            size
        };
        let parameter = likely_parameter(*sum, numbers as u64);
        if parameter > 14 {
            coding = 1;
        }
        total = total.wrapping_add(expected_bits(*sum, numbers as u64, parameter));
    }
    let parameters = (count as u64).wrapping_mul(if coding == 0 { 4 } else { 5 });
    let size = total.wrapping_add(parameters);
    Expected {
        partitions: Partitions { order: n, coding },
        size,
    }
}
