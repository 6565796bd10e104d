// Definitions only: the JVM Specification's constant pool stands in specs/, read from bytes and written as bytes.
#![tactic(auto)]
