// Events by their vector: the type, whether it carries an error code, whether it is soft, and the word.
use std::io;

pub fn vectors(rt: &impl Print, numbers: [u64; 8]) -> io::Result<()> {
    let [vector, is_code_given, ..] = numbers;
    let vector = replay::low_byte(vector);
    let int_type = definitions::from_vector(vector);
    replay::print_numbers(
        rt,
        &[
            u64::from(u32::from(int_type)),
            u64::from(definitions::vector_has_error_code(vector)),
            u64::from(definitions::is_soft(int_type)),
            u64::from(definitions::event_word(vector, is_code_given == 1)),
        ],
    )
}
