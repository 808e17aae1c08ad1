// Families and level tables written as digits, one label a plot.

// Columns of `n` plots one after the other, each 240 places from the next; nothing past the table. The digits after 9 are `:`, `;` and on.
pub fn fill<T: Copy + From<u8>>(table: &mut [T], n: usize, digits: &[u8]) {
    if n == 0 {
        return;
    }
    for (column, labels) in table.chunks_exact_mut(240).zip(digits.chunks(n)) {
        for (cell, &digit) in column.iter_mut().zip(labels) {
            *cell = T::from(digit % 16);
        }
    }
}
