use ddl_reader::{
    machine_knows_the_least_depth, machine_reads_modules_exactly, prints_tell_modules_apart,
};

#[test]
fn the_laws_can_be_called() {
    prints_tell_modules_apart();
    machine_reads_modules_exactly();
    machine_knows_the_least_depth();
}
