// What is tested, by subject.

mod ceiling_disks;
mod claim_tests;
mod disks;
mod lease_tests;
mod machine_tests;
mod noted;
mod pool_tests;
mod system_tests;
mod twin_disks;
mod word_tests;
