// The words of an exit.
use std::io;

pub fn io_exit_info(rt: &impl Print, n: [u64; 8]) -> io::Result<()> {
    let info = vmcs::exit_info::io_exit_info(n[0]);
    replay::print_numbers(
        rt,
        &[
            u64::from(info.access_size),
            u64::from(info.is_in),
            u64::from(info.is_string),
            u64::from(info.is_repeat),
            u64::from(info.port),
        ],
    )
}

pub fn cr_access_info(rt: &impl Print, n: [u64; 8]) -> io::Result<()> {
    let info = vmcs::exit_info::cr_access_info(n[0]);
    replay::print_numbers(
        rt,
        &[
            u64::from(info.cr_number),
            u64::from(info.access_type),
            u64::from(info.lmsw_op_type),
            u64::from(info.gpr),
            u64::from(info.lmsw_source_data),
        ],
    )
}

pub fn interrupt_exit_info(rt: &impl Print, n: [u64; 8]) -> io::Result<()> {
    let info = vmcs::exit_info::interrupt_exit_info(bits::low(n[0]));
    replay::print_numbers(
        rt,
        &[
            u64::from(info.vector),
            u64::from(u32::from(info.int_type)),
            u64::from(info.err_code),
            u64::from(info.valid),
        ],
    )
}
