//! The table of the caches that serve the CPUs.
ghost use Rattle.machine.specs.CpuTables.{IsCpuTable};
ghost use Rattle.machine.specs.Ranges.{InRange};

use crate::parameters::Parameters;

/// The most CPUs that a machine has.
pub(crate) const MOST_CPUS: usize = 64;

/// The cache that serves each CPU. CPUs are shared out in order, as evenly as they go (this project's profile).
pub(crate) fn cpu_table(parameters: &Parameters) -> [u8; MOST_CPUS]
    requires { InRange parameters.now }
    ensures { IsCpuTable parameters.now.domains parameters.now.cpus result }
{
    let domains = u16::from(parameters.domains);
    let cpus = u16::from(parameters.cpus);
    let mut table = [0; MOST_CPUS];
    for cpu in 0..cpus {
        table[usize::from(cpu)] = (cpu * domains / cpus) as u8;
    }
    table
}
